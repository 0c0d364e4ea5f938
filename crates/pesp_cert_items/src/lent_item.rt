//! The line that was read last, kept without its list and lent with it.

ghost use Rattle.std.specs.Prelude.{◌≡◌, true, false, drop, MatchOption};
ghost use Rattle.std.specs.Option.{option_copied};
ghost use Rattle.pesp_stream.specs.Words.{words_of, pieces_left};
ghost use Rattle.pesp_cert.specs.Texts.{is_end};
ghost use Rattle.pesp_cert_items.specs.Plain.{in_front};
ghost use Rattle.pesp_cert_items.specs.Lent.{listed, bare, read_back, IsSpelt, item_said, line_back, IsLineSpelt, is_own};
ghost use Rattle.pesp_cert_lines.specs.declared.item.Item.TheVariants.{End};

use crate::item::Item;
use crate::marked::MarkedRows;
use crate::pairs::LinePairs;
use crate::rows::SignedRows;
use crate::text_line::TextLine;
use pesp_cert_lines::Item as LineItem;
use pesp_stream::split_at_byte;

/// The same item without the elements of its list.
fn bare_item(item: &LineItem<'_>) -> Item<'static>
    requires goes { is_end item.now ≡ false }
    requires plain { in_front item.now ≡ false }
    ensures { listed result ≡ bare item.now }
{
    match item {
        LineItem::Version(version) => Item::Version(*version),
        LineItem::Period(period) => Item::Period(*period),
        LineItem::Answer(answer) => Item::Answer(*answer),
        LineItem::Time(label, time) => Item::Time(*label, *time),
        LineItem::Cycle(_) => Item::Cycle(SignedRows::new(None)),
        LineItem::Slack { row, k } => Item::Slack { row: *row, k: *k },
        LineItem::Offset { cycle, k } => Item::Offset {
            cycle: *cycle,
            k: *k,
        },
        LineItem::Bound(_) => Item::Bound(LinePairs::new(None)),
        LineItem::Nothing(_) => Item::Nothing(LinePairs::new(None)),
        LineItem::Gap(cycle) => Item::Gap(*cycle),
        LineItem::Propagated => Item::Propagated,
        LineItem::Front
        | LineItem::Scale(_)
        | LineItem::Walk(_)
        | LineItem::Lemma(_)
        | LineItem::Least(_)
        | LineItem::End => unreachable!(),
    }
}

/// What a line says without the elements of its list; None of the last one.
pub(crate) fn bare_line(item: &LineItem<'_>) -> Option<TextLine<'static>>
    ensures { MatchOption result (item.now ≡ End)
        (λ line. (is_end item.now ≡ false) × (item_said line ≡ bare item.now)) }
{
    match item {
        LineItem::End => None,
        LineItem::Front => Some(TextLine::Front),
        LineItem::Scale(scale) => Some(TextLine::Scale(*scale)),
        LineItem::Walk(_) => Some(TextLine::Walk(MarkedRows::new(None))),
        LineItem::Lemma(_) => Some(TextLine::Lemma(LinePairs::new(None))),
        LineItem::Least(least) => Some(TextLine::Least(*least)),
        own => Some(TextLine::Own(bare_item(own))),
    }
}

/// What stands behind the first word.
fn behind_first(line: &[u8]) -> Option<&[u8]>
    ensures { pieces_left 32 (option_copied result) ≡ drop 1 (words_of line.now) }
{
    let (_first, rest) = split_at_byte(b' ', line);
    rest
}

/// The item of a line, by the same item without the elements of its list.
fn item_in<'a>(said: &Item<'static>, line: &'a [u8]) -> Item<'a>
    requires { IsSpelt said.now line.now }
    ensures { listed result ≡ read_back said.now line.now }
{
    match said {
        Item::Cycle(_) => Item::Cycle(SignedRows::new(behind_first(line))),
        Item::Bound(_) => Item::Bound(LinePairs::new(behind_first(line))),
        Item::Nothing(_) => Item::Nothing(LinePairs::new(behind_first(line))),
        other => *other,
    }
}

/// A line, by the same line without the elements of its list.
pub(crate) fn line_in<'a>(said: &TextLine<'static>, line: &'a [u8]) -> TextLine<'a>
    requires { IsLineSpelt said.now line.now }
    ensures { item_said result ≡ line_back said.now line.now }
{
    match said {
        TextLine::Front => TextLine::Front,
        TextLine::Scale(scale) => TextLine::Scale(*scale),
        TextLine::Walk(_) => TextLine::Walk(MarkedRows::new(behind_first(line))),
        TextLine::Lemma(_) => TextLine::Lemma(LinePairs::new(behind_first(line))),
        TextLine::Least(least) => TextLine::Least(*least),
        TextLine::Own(item) => TextLine::Own(item_in(item, line)),
    }
}

/// The item of a line that is none of a front, by the same line without the elements of its list.
pub(crate) fn own_in<'a>(said: &TextLine<'static>, line: &'a [u8]) -> Item<'a>
    requires own { is_own said.now ≡ true }
    requires spelt { IsLineSpelt said.now line.now }
    ensures { listed result ≡ line_back said.now line.now }
{
    match said {
        TextLine::Own(item) => item_in(item, line),
        TextLine::Front
        | TextLine::Scale(_)
        | TextLine::Walk(_)
        | TextLine::Lemma(_)
        | TextLine::Least(_) => unreachable!(),
    }
}
