// One event on a table that is lent as bytes, each record changed in its place.
ghost use Rattle.std.specs.Prelude.{◌≡◌, length, Ok};
ghost use Rattle.line.specs.Event.{bit, answered};
ghost use Rattle.line.specs.Line.{value_of, after_by};
ghost use Rattle.line.specs.declared.Plan.TheVariants as plan;
ghost use Rattle.line.specs.Carried.{walked};
ghost use Rattle.packed.specs.Packed.{unpacked_table};
ghost use Rattle.packed.specs.Places.{Table16};
ghost use Rattle.toemsakun.specs.Library.{event_left, answer_number, packed_outcome, event_bytes};
ghost use Rattle.toemsakun.specs.Judging.{plan_bytes};
ghost use Rattle.toemsakun.specs.Slots.{Lined, line_in};

use crate::{loops, slots};
use line::{Event, Plan, Refusal};

// What an event comes to on bytes and their buffers.
fn plan_bytes(table: &[u8], e: Event, ms: &[u8], ss: &[u8]) -> Result<Plan, Refusal>
    ensures { result ≡ plan_bytes table.now e ms.now ss.now }
{
    let Some(survey) = loops::judge(table, e.chip) else {
        return Err(Refusal::OutOfRange);
    };
    line::carrier::plan_of(survey, survey.spot.place, e, ms.len(), ss.len())
}

// A plan is carried out, which gives the bus bit.
fn play(table: &mut [u8], plan: Plan, ms: &mut [u8], ss: &mut [u8]) -> bool
    requires { Table16 table.old }
    ensures { event_left (answer_number (bit result)) table.new ms.new ss.new
        ≡ packed_outcome (walked (length (unpacked_table table.old)) (length (unpacked_table table.old)) (unpacked_table table.old) ms.old ss.old plan) }
{
    let value = loops::line_value(table, plan, ms, ss);
    loops::all_turn(table, plan, value, ms, ss);
    value
}

// A slot in which the host puts a bit, on bytes and buffers that stand well.
fn put_slot(table: &mut [u8], host: bool, ms: &mut [u8], ss: &mut [u8]) -> bool
    requires { Lined table.old ms.old ss.old }
    ensures result_value { result ≡ value_of host (line_in table.old ms.old ss.old) }
    ensures ss_after { line_in table.new ms.new ss.new ≡ after_by (plan.Slot host) (line_in table.old ms.old ss.old) }
    ensures lined { Lined table.new ms.new ss.new }
{
    let all = slots::whole(table);
    slots::slot(table, all, host, ms, ss)
}

// What an event came to is carried out: a slot in place, any other plan the general way.
fn carry_out(table: &mut [u8], e: Event, plan: Plan, ms: &mut [u8], ss: &mut [u8]) -> bool
    requires { Ok plan ≡ plan_bytes table.old e ms.old ss.old }
    ensures { event_left (answer_number (bit result)) table.new ms.new ss.new
        ≡ event_bytes table.old e ms.old ss.old }
{
    match plan {
        Plan::Slot(host) => put_slot(table, host, ms, ss),
        _ => play(table, plan, ms, ss),
    }
}

// One event: its refusals in their order (`line::take_event`), each with nothing changed; else the bus bit.
pub fn take_event(table: &mut [u8], e: Event, ms: &mut [u8], ss: &mut [u8]) -> Result<bool, Refusal>
    ensures { event_left (answer_number (answered result)) table.new ms.new ss.new
        ≡ event_bytes table.old e ms.old ss.old }
{
    let plan = plan_bytes(table, e, ms, ss)?;
    let value = carry_out(table, e, plan, ms, ss);
    line::carrier::answer_of(Ok(plan), value)
}
