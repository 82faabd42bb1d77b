// Stripping: a script or a types table without its groups.

#![tactic(auto)]

ghost use Rattle.std.specs.Prelude.{◌≡◌, if◌then◌else◌, ◌≤◌, ◌<◌};
ghost use Rattle.rules.specs.Limits.{script_width};
ghost use Rattle.rules.specs.Strip.{group_byte, strip_from, strip_script, strip_types};

use records::SCRIPT_WIDTH;
use types::TYPE_WIDTH;

// A byte that stands at `place` in a record of this width: 0 where it is r, ir, or one of the last two, c and ic.
fn kept(width: usize, place: usize, b: u8) -> u8
    requires { place < script_width }
    ensures { result ≡ (if group_byte width place then 0 else b) }
{
    if ((place == 1) | (place == 2)) | (width <= place + 2) {
        0
    } else {
        b
    }
}

// Sets the groups of each record to 0, also in a last record that is cut short, as far as it goes. No record is wider
// than a script's.
fn strip(bytes: &mut [u8], width: usize)
    requires wide { 0 < width }
    requires narrow { width ≤ script_width }
    ensures { bytes.new ≡ strip_from width 0 bytes.old }
{
    for (i, byte) in bytes.iter_mut().enumerate() {
        *byte = kept(width, i % width, *byte);
    }
}

/// Sets the groups of every record of a script to 0, also of a last one that is cut short, as far as it goes. Every
/// other byte stays.
pub fn strip_script(script: &mut [u8])
    ensures { script.new ≡ strip_script script.old }
{
    strip(script, SCRIPT_WIDTH);
}

/// Sets the groups of every record of a types table to 0, also of a last one that is cut short, as far as it goes.
/// Every other byte stays.
pub fn strip_types(types: &mut [u8])
    ensures { types.new ≡ strip_types types.old }
{
    strip(types, TYPE_WIDTH);
}
