//! The run: an instance in, a list of activities out.

ghost use Rattle.std.specs.Prelude.{◌≡◌, ◌≢◌, ℕ, ◌<◌, ◌≤◌, ◌^◌, List, length, option_copied, OnOk, IfOk, IfErr};
ghost use Rattle.std.specs.Io.KnownBytes.{Appends};
ghost use Rattle.pesp_problem.specs.declared.limits.TheConstants.{MOST_ROWS, MOST_STEPS};
ghost use Rattle.pesp_stream.specs.Counts.{FewerThan, HasWorked};
ghost use Rattle.pesp_conflict.specs.Findings.{IsConflict};
ghost use Rattle.pesp_check.specs.Devices.{over, HasFailed, GetsFront};
ghost use Rattle.pesp_report.specs.Naming.{naming_of};
ghost use Rattle.pesp_runs.specs.Causes.{OutCause};
ghost use Rattle.pesp_report_run.specs.Runs.{ConflictCause, TellsConflict, WritesList};

use crate::told::{Told, told_of};
use pesp_conflict::{Finding, conflict, text_of_listed};
use pesp_forest::TimesFinder;
use pesp_problem::Instance;
use pesp_railway::add_sums;
use pesp_report::Names;
use pesp_runs::{Fault, read_whole_instance};
use pesp_stream::{Bytes, Sink, Source, print_to};
use std::alloc::Global;

/// Writes the list of rows that are in conflict.
fn write_list<W: Sink>(
    alloc: Global,
    instance: &Instance,
    rows: &[u32],
    names: Option<&Names>,
    writer: &mut W,
) -> Result<(), Fault>
    requires conflict { IsConflict instance.now rows.now }
    requires fits { FewerThan (2 ^ 63) (W.calls writer.old) }
    ensures ok { OnOk result (WritesList instance.now (naming_of (option_copied names.entry)) rows.now
        (Appends (W.contents writer.old) (W.contents writer.new))) }
    ensures counts { OnOk result (HasWorked (W.calls writer.old) (W.calls writer.new)) }
    ensures cause { IfErr result (λ fault. OutCause fault
        (HasFailed (over (W.contents writer.old) (W.contents writer.new)
        (W.calls writer.old) (W.calls writer.new))
        × (listed : List ℕ) × WritesList instance.now (naming_of (option_copied names.entry)) listed (GetsFront
        (over (W.contents writer.old) (W.contents writer.new)
        (W.calls writer.old) (W.calls writer.new))))) }
    ensures silent { IfErr result (λ fault. fault ≢ Fault.Write → writer.new ≡ writer.old) }
{
    let text = text_of_listed(alloc, instance, rows, names)?;
    print_to(writer, &Bytes(&text))?;
    Ok(())
}

/// How many rows are listed.
fn count_of(rows: &[u32]) -> u32
    requires { length rows.now ≤ MOST_ROWS }
    ensures { result ≡ length rows.now }
{
    rows.len() as u32
}

/// Reads an instance, looks for activities that together have no timetable, by at most so many splits of a leaf at first, and
/// writes them as records of csv: the header `row,label,tail,head,lower,upper`, and a record for each listed row, by rising
/// number. Nothing is written where there is no list. Where names are told, those of the events stand behind each record; and
/// where the rows that are listed make up one closed walk, its sum is added to a text in words, of which nothing is promised.
///
/// Where it tells a conflict, every list of times violates one of the rows that are listed; where it tells that each is
/// needed, there are for each listed row times that keep all other listed rows. Where it tells a timetable, there is one; where
/// it tells that so many steps decided nothing, a search over all rows used them and found neither.
/// `Search` where the cycles or the tree of a search over some rows pass their limits, which they can only where the square of
/// the number of rows is above 10000000, or the number of rows times one more than the steps above 20000000. A finder looks for
/// times.
pub fn run_conflict<R: Source, W: Sink, F: TimesFinder>(
    alloc: Global,
    reader: &mut R,
    writer: &mut W,
    period: u32,
    steps: u32,
    names: Option<&Names>,
    sums: &mut String,
    finder: &mut F,
) -> Result<Told, Fault>
    requires steps { steps ≤ MOST_STEPS }
    requires reads_fit { FewerThan (2 ^ 62) (R.calls reader.old) }
    requires writes_fit { FewerThan (2 ^ 62) (W.calls writer.old) }
    ensures ok { IfOk result (λ told. TellsConflict (R.remaining reader.old)
        (R.remaining reader.new) period steps (naming_of (option_copied names.entry)) told
        (Appends (W.contents writer.old) (W.contents writer.new))
        (writer.new ≡ writer.old)) }
    ensures reads { OnOk result (HasWorked (R.calls reader.old) (R.calls reader.new)) }
    ensures reads_else { IfErr result (λ fault. fault ≢ Fault.Read → HasWorked (R.calls reader.old) (R.calls reader.new)) }
    ensures writes { OnOk result (HasWorked (W.calls writer.old) (W.calls writer.new)) }
    ensures cause { IfErr result
        (λ fault. ConflictCause fault
        (over (R.remaining reader.old) (R.remaining reader.new)
        (R.calls reader.old) (R.calls reader.new))
        (over (W.contents writer.old) (W.contents writer.new)
        (W.calls writer.old) (W.calls writer.new)) period steps (naming_of (option_copied names.entry))) }

    // Before the whole list stands the writer isn't called.
    ensures silent { IfErr result (λ fault. fault ≢ Fault.Write → writer.new ≡ writer.old) }
{
    let instance = read_whole_instance(alloc, reader, period)?;
    let _limits = instance.rows();
    match conflict(alloc, &instance, steps, finder)? {
        Finding::Conflict(found) => {
            write_list(alloc, &instance, &found.rows, names, writer)?;
            let _refused = add_sums(alloc, &instance, &found.rows, names, sums);
            let listed = count_of(&found.rows);
            let of = instance.rows().len() as u32;
            Ok(told_of(listed, of, found.each_needed))
        }
        Finding::Timetable => Ok(Told::Timetable),
        Finding::Undecided => Ok(Told::Undecided { steps }),
    }
}
