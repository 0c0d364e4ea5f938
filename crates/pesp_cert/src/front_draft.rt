//! The front of a text while it is read.

ghost use Rattle.std.specs.Prelude.{◌≡◌, None, is_some, IfOk, OnOk};
ghost use Rattle.pesp_cert.specs.Drafts.{no_front, noted, noted_walks, lemmas_with};

use crate::shown_lemma::{ShownLemma, marked_walk_of};
use pesp_cert_lines::{Item, LinePairs};
use pesp_problem::{MarkedWalk, Memory, Pair};
use std::alloc::Global;
use std::marker::Model;

/// What the lines of a text said of its front so far: whether one began, its scale, its marked walks, the lemmas that are shown
/// whole, and the one that the lines show, if they show one.
#[derive(Drop)]
pub struct FrontDraft {
    pub begun: bool,
    pub scale: u32,
    pub walks: Vec<MarkedWalk>,
    pub lemmas: Vec<ShownLemma>,
    pub shown: Option<ShownLemma>,
}

impl Model for FrontDraft {
    ghost use Rattle.pesp_cert.specs.Drafts.{FrontValue};

    ghost Value = { FrontValue };

    ghost view = { λ f. record {
      begun = f.begun;
      scale = f.scale;
      walks = f.walks.items;
      lemmas = f.lemmas.items;
      shown = f.shown;
    } };
}

/// The rows of a lemma with their weights.
fn weights_of(alloc: Global, pairs: LinePairs<'_>) -> Result<Vec<Pair>, Memory>
    ensures { IfOk result (λ weights. weights.items ≡ pairs.entry) }
{
    Ok(pairs.collect(alloc)?)
}

impl FrontDraft {
    /// No front began so far.
    pub fn new(alloc: Global) -> FrontDraft
        ensures { result ≡ no_front }
    {
        FrontDraft {
            begun: false,
            scale: 0,
            walks: Vec::new(alloc),
            lemmas: Vec::new(alloc),
            shown: None,
        }
    }

    /// The lemma that the lines show is whole.
    fn end_lemma(&mut self) -> Result<(), Memory>
        ensures { OnOk result (self.new ≡ record self.old { lemmas = lemmas_with self.old.lemmas self.old.shown; shown = None }) }
    {
        if let Some(lemma) = self.shown.take() {
            self.lemmas.push(lemma)?;
        }
        Ok(())
    }

    /// Notes what the next line says of the front's own scale and walks.
    fn note_walk(&mut self, alloc: Global, item: &Item<'_>) -> Result<(), Memory>
        ensures { OnOk result (self.new ≡ noted_walks self.old item.now) }
    {
        match item {
            Item::Scale(scale) => self.scale = *scale,
            Item::Walk(rows) => self.walks.push(marked_walk_of(alloc, rows.again())?)?,
            _ => {}
        }
        Ok(())
    }

    /// Notes what the next line says of the front, or of the lemma that the lines show.
    pub fn note(&mut self, alloc: Global, item: &Item<'_>) -> Result<(), Memory>
        ensures { OnOk result (self.new ≡ noted self.old item.now) }
    {
        match item {
            Item::Front => self.begun = true,
            Item::Lemma(pairs) => {
                let weights = weights_of(alloc, pairs.again())?;
                self.end_lemma()?;
                self.shown = Some(ShownLemma::new(alloc, weights));
            }
            Item::Version(_) => self.end_lemma()?,
            _ => match &mut self.shown {
                Some(lemma) => lemma.add(alloc, item)?,
                None => self.note_walk(alloc, item)?,
            },
        }
        Ok(())
    }

    /// Whether the lines show a lemma.
    pub fn shows_lemma(&self) -> bool
        ensures { result ≡ is_some self.now.shown }
    {
        self.shown.is_some()
    }
}
