// The function that the loan desk calls, on numbers and byte slices. An answer is one number: refused is question *
// 2^32 + place; otherwise the upper half is 0, and the lower half has the end and a record count.

#![tactic(auto)]

ghost use Rattle.std.specs.Prelude.{◌≡◌, length};
ghost use Rattle.rules.specs.Packet.{packet_call, packet_report};
ghost use Rattle.promises.specs.Packet.{PacketByHand};
ghost use Rattle.packing.specs.Packed.{packed_number, run_lower, RunCounted};
ghost use Rattle.packet.specs.Reports.{said_packet, LeavesPacket};
ghost use Rattle.wigneld_desk.specs.Exported.{steps_told};

use answer::Refusal;
use packet::Packet;

// A packet's end and record count, with its steps written apart, or the refusal, with nothing written.
fn packet_number(outcome: Result<Packet, Refusal>, steps: &mut [u8]) -> u64
    requires { RunCounted (said_packet outcome) }
    ensures answer { result ≡ packed_number (run_lower (said_packet outcome)) }
    ensures steps { steps.new ≡ steps_told (said_packet outcome) steps.old }
{
    if let Ok(packet) = outcome {
        packing::put_steps(packet.steps, steps);
    }
    packing::answer(outcome.map(|packet| {
        packing::end_and_count(reduction::end_number(packet.stop), packet.records)
    }))
}

/// Issues a packet: the sheet, for the reader group `group`, of `script` applied to `entry` as that group, from a run
/// of at most `budget` steps. The answer is the run's end times 65,536 plus a record count: at end 0, a value, that
/// of the sheet, and at any other that of the last term. The other ends are 1 where the budget is spent, 2 where the
/// reader may not, 3 at the wrong kind, 4 at a term that is too big.
///
/// Refuses, in this order: a `work` that is too short (question 1, place 0); a groups table, types table or script
/// that isn't well made (2 to 19 and 36) and, under a profile that isn't 0, a recursion in it (39); a script without
/// a type (20 to 24 and 31); the same of `entry`; then at place 0 an entry that is no value (26), a group that isn't
/// in the table (25), a script that is no function (37), that the group may not apply (21), or whose left side the
/// entry's type isn't at or below (38), an application that `first` or `scratch` has no room for (13), or that is too
/// deep (18); and after the run a `sheet` that is too short (27).
///
/// `work` is left all zeros once the script's typing has begun, and kept before. Once there was a run, `first` holds
/// the last term and then zeros, and `scratch` is all zeros, whatever is answered; before, both are kept. Of a packet
/// `steps` takes the number of steps in 8 bytes, lowest byte first, as many of them as it has, and at end 0 the sheet
/// fills the front of `sheet`, whose later bytes are kept; otherwise `steps` and `sheet` are kept.
///
/// `promise` is what the desk may rely on: the packet is that of building the application by hand, running it and
/// showing its last term.
#[unsafe(no_mangle)]
pub extern "C" fn wigneld_packet(
    groups: &[u8],
    types: &[u8],
    script: &[u8],
    entry: &[u8],
    group: u64,
    budget: u64,
    profile: u64,
    work: &mut [u8],
    first: &mut [u8],
    scratch: &mut [u8],
    steps: &mut [u8],
    sheet: &mut [u8],
) -> u64
    ensures answer { result ≡ packed_number (run_lower (packet_report (packet_call groups.now types.now script.now entry.now group
        budget profile (length work.old) (length first.old) (length scratch.old) (length sheet.old)))) }
    ensures steps { steps.new ≡ steps_told (packet_report (packet_call groups.now types.now script.now entry.now group
        budget profile (length work.old) (length first.old) (length scratch.old) (length sheet.old))) steps.old }
    ensures lent { LeavesPacket groups.now types.now script.now entry.now group budget profile
        work.old first.old scratch.old sheet.old work.new first.new scratch.new sheet.new }
    ensures promise { PacketByHand groups.now types.now script.now entry.now group budget profile
        (length work.old) first.old scratch.old (length sheet.old) }
{
    packet_number(
        packet::issue(
            groups, types, script, entry, group, budget, profile, work, first, scratch, sheet,
        ),
        steps,
    )
}
