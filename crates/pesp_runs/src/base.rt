//! Certificates to begin with.

ghost use Rattle.std.specs.Prelude.{◌≢◌, ◌<◌, ◌^◌, ℕ, List, Option, OnOk, IfOk, IfErr};
ghost use Rattle.pesp_stream.specs.Counts.{FewerThan, HasWorked};
ghost use Rattle.pesp_problem.specs.Timetables.{Pesp};
ghost use Rattle.pesp_check.specs.Devices.{Device, over};
ghost use Rattle.pesp_runs.specs.declared.fault.Fault.{Fault as AnyFault};

use crate::{Fault, MOST_TEXT, read_base};
use pesp_cert::{Certificate, Fronted, parse_fronted};
use pesp_judges::Verdict;
use pesp_problem::Instance;
use pesp_stream::{Source, read_all};
use pesp_whole_check::check_sharp;
use std::alloc::Global;

/// A certificate that is read to begin with, and is valid for its instance: one without a front, or one that may have it.
pub trait Base: Drop {
    // It is valid for the instance.
    ghost valid: { Pesp → Self → Type 0 };

    // The bytes that were read are its text, and it is valid for the instance.
    ghost reads: { Option (List ℕ) → Option (List ℕ) → Pesp → Self → Type 0 };

    // Why there is none: its text, its verdict, or the reader's device.
    ghost refused: { AnyFault → Device → Pesp → Type 0 };

    /// Reads it, and judges it: `Base` with what is wrong where it isn't valid for the instance. At most 1,073,741,824 bytes are
    /// read and judged.
    fn read<R: Source>(alloc: Global, instance: &Instance, reader: &mut R) -> Result<Self, Fault>
        requires fits { FewerThan (2 ^ 63) (R.calls reader.old) }
        ensures ok { IfOk result
            (reads (R.remaining reader.old) (R.remaining reader.new) instance.now) }
        ensures valid { IfOk result (valid instance.now) }
        ensures counts { OnOk result (HasWorked (R.calls reader.old) (R.calls reader.new)) }
        ensures counts_else { IfErr result (λ fault. fault ≢ Fault.Read → HasWorked (R.calls reader.old) (R.calls reader.new)) }
        ensures cause { IfErr result
            (λ fault. refused fault
            (over (R.remaining reader.old) (R.remaining reader.new)
            (R.calls reader.old) (R.calls reader.new)) instance.now) };
}

impl Base for Certificate {
    ghost use Rattle.std.specs.Prelude.{None};
    ghost use Rattle.pesp_truth.specs.Certificates.{IsValid};
    ghost use Rattle.pesp_runs.specs.Reading.{ReadsBase};
    ghost use Rattle.pesp_runs.specs.Causes.{BaseCause};

    ghost valid = { IsValid None };

    ghost reads = { ReadsBase };

    ghost refused = { BaseCause };

    fn read<R: Source>(
        alloc: Global,
        instance: &Instance,
        reader: &mut R,
    ) -> Result<Certificate, Fault> {
        read_base(alloc, instance, reader)
    }
}

impl Base for Fronted {
    ghost use Rattle.pesp_runs.specs.Bases.{IsSharpBase, ReadsSharpBase, SharpBaseCause};

    ghost valid = { IsSharpBase };

    ghost reads = { ReadsSharpBase };

    ghost refused = { SharpBaseCause };

    fn read<R: Source>(
        alloc: Global,
        instance: &Instance,
        reader: &mut R,
    ) -> Result<Fronted, Fault> {
        let text = read_all(alloc, reader, MOST_TEXT)?;
        let base = parse_fronted(alloc, &text)?;
        match check_sharp(alloc, instance, &base)? {
            Verdict::Accepted => Ok(base),
            Verdict::Refused(refusal) => Err(Fault::Base(refusal)),
        }
    }
}
