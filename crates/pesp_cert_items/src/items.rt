//! The items of a certificate's text, one after another.

ghost use Rattle.std.specs.Prelude.{◌≡◌, ◌+◌, ◌<◌, ◌≤◌, ◌^◌, [], true, false, OnOk, IfErr};
ghost use Rattle.std.below.core.specs.declared.int.u64.TheConstants.{MAX};
ghost use Rattle.std.specs.Borrow.{sem};
ghost use Rattle.std.specs.Io.BufRead.{Rests};
ghost use Rattle.pesp_stream.specs.Counts.{FewerThan};
ghost use Rattle.pesp_cert_lines.specs.declared.versions.Versions.TheVariants.{Plain};
ghost use Rattle.pesp_cert_lines.specs.Counts.{beginning};
ghost use Rattle.pesp_cert_items.specs.declared.stage.Stage.TheVariants as stages;
ghost use Rattle.pesp_cert_items.specs.Plain.{IsPlain};
ghost use Rattle.pesp_cert_items.specs.Readings.{is_going};

use crate::fault::ItemFault;
use crate::item::Item;
use crate::item_reader::ItemReader;
use pesp_cert_lines::Versions;
use pesp_stream::{MOST_INTERRUPTED, Source};
use std::alloc::Global;

/// The items of a certificate's text that are still to come: what its lines say, up to the one before `end`. At most 1,073,741,824 bytes of the reader are read, and those are judged.
#[derive(Drop)]
pub struct Items<S: Source> {
    source: S,
    reader: ItemReader,
    ghost failed_fits: { is_going reader.stage ≡ true → (S.calls source).failed < MAX },
    ghost interrupted_fits: { is_going reader.stage ≡ true
        → (S.calls source).interrupted ≤ reader.most },
    ghost plain: { IsPlain reader.progress },
}

impl<S: Source> Items<S> {
    ghost use Rattle.pesp_cert_items.specs.contracts.items.Items.{the_row};
    ghost use Rattle.pesp_cert_items.specs.Views.{reading};
    ghost use Rattle.pesp_cert_items.specs.Lent.{said_by};
    ghost use Rattle.pesp_cert_items.specs.Readings.{AnswersNext, Blamed};

    /// The items of the reader's text. Nothing is read so far.
    pub fn new(alloc: Global, source: S) -> Items<S>
        requires fits { FewerThan (2 ^ 63) (S.calls source) }
        ensures source { result.source ≡ source }
        ensures most { result.reader.most ≡ (S.calls source).interrupted + 1000 }
        ensures begins { reading (S.remaining source) result.reader
            ≡ record {
              told = S.remaining source;
              left = 1073741824;
              held = [];
              n = 0;
              progress
                  = beginning Plain;
              stage = stages.Going;
            } }
    {
        let most = source.interrupted_reads() + MOST_INTERRUPTED;
        Items {
            source,
            reader: ItemReader::new(alloc, most, Versions::Plain),
        }
    }

    /// The next item, which is lent until the next call; None exactly where the whole text is a certificate's and all
    /// its items came. `Text` is the text's first fault, or says that a growth was refused; `Read` that the reader failed.
    /// After a fault each call answers that fault, and after None it answers None.
    pub fn next(&mut self) -> Result<Option<Item<'_>>, ItemFault>
        ensures* after_borrow { sem 𝓛 (Rests (the_row S.row S.Source) self.entry
            (λ new. (new.reader.most ≡ self.old.reader.most)
            × OnOk result (((S.calls new.source).failed ≡ (S.calls self.old.source).failed)
            × (is_going self.old.reader.stage ≡ true
            → (S.calls new.source).interrupted ≤ self.old.reader.most))
            × AnswersNext self.old.reader.stage (reading (S.remaining self.old.source) self.old.reader)
            (reading (S.remaining new.source) new.reader) (said_by result)
            × (is_going self.old.reader.stage ≡ true
            → IfErr result (λ fault. Blamed fault (S.calls self.old.source) self.old.reader.most
            (S.calls new.source)))
            × (is_going self.old.reader.stage ≡ false → new.source ≡ self.old.source))) }
    {
        if !self.reader.step(&mut self.source)? {
            return Ok(None);
        }
        Ok(Some(self.reader.item()))
    }
}
