//! The report as one line of JSON.
ghost use Rattle.std.specs.Prelude.{◌≡◌, Err, false, IfOk, OnOk, string_bytes};
ghost use Rattle.serde_json.specs.Data.{put, unsigned, number as number_data};
ghost use Rattle.serde_json.specs.View.{view, members_view};
ghost use Rattle.serde_json.specs.Written.{compact_text, has_float};
ghost use Rattle.fs_model.specs.Outcome.{all_outcomes, total_at};
ghost use Rattle.report.specs.JsonMembers.{with_outcomes};
ghost use Rattle.report.specs.Text as spec;
ghost use Rattle.fs_outside.specs.Faults.{IsCaused};
ghost use Rattle.fs_outside.specs.Writing.{Writes};
ghost use Rattle.report.specs.Refusal.{is_failed};

use crate::refusal::{ReportRefusal, write_made};
use fs_model::{Outcome, Totals};
use fs_outside::Sink;
use serde_json::{Map, Value};
use std::alloc::{AllocError, Global};

// Adds a number to an object, which keeps its keys in ascending order.
fn put_number(
    alloc: Global,
    members: &mut Map<String, Value>,
    key: &str,
    number: u64,
) -> Result<(), AllocError>
    ensures { OnOk result (members_view members.new.entries ≡ put key.now (number_data (unsigned number)) (members_view members.old.entries)) }
{
    let name = String::from_str(alloc, key)?;
    members.insert(name, Value::from(number))?;
    Ok(())
}

// Adds the total of each outcome to an object.
fn put_totals(
    alloc: Global,
    members: &mut Map<String, Value>,
    totals: &Totals,
) -> Result<(), AllocError>
    ensures { OnOk result (members_view members.new.entries ≡ with_outcomes (total_at totals.now) (members_view members.old.entries) all_outcomes) }
{
    for outcome in Outcome::ALL {
        put_number(alloc, members, outcome.key(), totals.get(outcome))?;
    }
    Ok(())
}

fn totals_value(
    alloc: Global,
    instructions: u32,
    sites: u64,
    totals: &Totals,
) -> Result<Value, AllocError>
    ensures plain { IfOk result (λ value. has_float (view value) ≡ false) }
    ensures text { IfOk result (λ value. compact_text (view value) ≡ spec.json_object instructions sites (total_at totals.now)) }
{
    let mut members = Map::new(alloc);
    put_number(alloc, &mut members, "instructions", instructions as u64)?;
    put_number(alloc, &mut members, "sites", sites)?;
    put_totals(alloc, &mut members, totals)?;
    Ok(Value::Object(members))
}

fn json_object(
    alloc: Global,
    instructions: u32,
    sites: u64,
    totals: &Totals,
) -> Result<String, AllocError>
    ensures { IfOk result (λ s. string_bytes s ≡ spec.json_object instructions sites (total_at totals.now)) }
{
    totals_value(alloc, instructions, sites, totals)?.to_string(alloc)
}

fn json_line(
    alloc: Global,
    instructions: u32,
    sites: u64,
    totals: &Totals,
) -> Result<String, AllocError>
    ensures { IfOk result (λ s. string_bytes s ≡ spec.json instructions sites (total_at totals.now)) }
{
    let mut text = json_object(alloc, instructions, sites, totals)?;
    text.push('\n')?;
    Ok(text)
}

/// Writes the numbers of a campaign as one line of JSON.
///
/// # Errors
///
/// `Failed` if the sink failed; it may have taken a part. `NoMemory` if memory for the line is refused, and
/// then nothing is written.
pub fn write_json<O: Sink>(
    alloc: Global,
    out: &mut O,
    instructions: u32,
    sites: u64,
    totals: &Totals,
) -> Result<(), ReportRefusal>
    ensures bytes { O.tells → Writes (O.taken out.old) (O.taken out.new) (spec.json instructions sites (total_at totals.now)) result }
    ensures cause { IsCaused (is_failed result) (O.faults out.old) (O.faults out.new) }
    ensures nothing { result ≡ Err ReportRefusal.NoMemory → out.new ≡ out.old }
{
    let Ok(text) = json_line(alloc, instructions, sites, totals) else {
        return Err(ReportRefusal::NoMemory);
    };
    write_made(out, text.as_bytes())
}

fn window_value(
    alloc: Global,
    instructions: u32,
    inside: u32,
    sites: u64,
    totals: &Totals,
) -> Result<Value, AllocError>
    ensures plain { IfOk result (λ value. has_float (view value) ≡ false) }
    ensures text { IfOk result (λ value. compact_text (view value) ≡ spec.window_object instructions inside sites (total_at totals.now)) }
{
    let mut members = Map::new(alloc);
    put_number(alloc, &mut members, "instructions", instructions as u64)?;
    put_number(alloc, &mut members, "window", inside as u64)?;
    put_number(alloc, &mut members, "sites", sites)?;
    put_totals(alloc, &mut members, totals)?;
    Ok(Value::Object(members))
}

fn window_object(
    alloc: Global,
    instructions: u32,
    inside: u32,
    sites: u64,
    totals: &Totals,
) -> Result<String, AllocError>
    ensures { IfOk result (λ s. string_bytes s ≡ spec.window_object instructions inside sites (total_at totals.now)) }
{
    window_value(alloc, instructions, inside, sites, totals)?.to_string(alloc)
}

fn window_line(
    alloc: Global,
    instructions: u32,
    inside: u32,
    sites: u64,
    totals: &Totals,
) -> Result<String, AllocError>
    ensures { IfOk result (λ s. string_bytes s ≡ spec.window_json instructions inside sites (total_at totals.now)) }
{
    let mut text = window_object(alloc, instructions, inside, sites, totals)?;
    text.push('\n')?;
    Ok(text)
}

/// Writes the numbers of a window as one line of JSON.
///
/// # Errors
///
/// `Failed` if the sink failed; it may have taken a part. `NoMemory` if memory for the line is refused, and
/// then nothing is written.
pub fn write_window_json<O: Sink>(
    alloc: Global,
    out: &mut O,
    instructions: u32,
    inside: u32,
    sites: u64,
    totals: &Totals,
) -> Result<(), ReportRefusal>
    ensures bytes { O.tells → Writes (O.taken out.old) (O.taken out.new) (spec.window_json instructions inside sites (total_at totals.now)) result }
    ensures cause { IsCaused (is_failed result) (O.faults out.old) (O.faults out.new) }
    ensures nothing { result ≡ Err ReportRefusal.NoMemory → out.new ≡ out.old }
{
    let Ok(text) = window_line(alloc, instructions, inside, sites, totals) else {
        return Err(ReportRefusal::NoMemory);
    };
    write_made(out, text.as_bytes())
}
