//! The numbers of one line, where its words have the form of its kind.

ghost use Rattle.std.specs.Prelude.{◌≡◌, ◌≤◌, length};
ghost use Rattle.pesp_cert_lines.specs.Items.{item_of, checked, spelt_cost, answer_from_words};

use crate::fault::LineFault;
use crate::item::Item;
use crate::kind::Kind;
use crate::marked::judge_marked;
use crate::pairs::judge_pairs;
use crate::rows::{MOST_WORDS, is_name, judge_rows};
use pesp_problem::{MOST_LABEL, MOST_OFFSET, MOST_PERIOD, MOST_SCALE, MOST_SLACK, MOST_TIME};
use pesp_stream::{Words, is_word, natural, whole};
use pesp_truth::Answer;

#[tactic(auto, unfolding(crate::specs::Items::item_of))]
fn scale(mut words: Words<'_>) -> Result<Item<'static>, LineFault>
    ensures { result ≡ checked (item_of Kind.Scale words.entry) }
{
    let Some(word) = words.next() else {
        return Err(LineFault::Number);
    };
    let Some(number) = natural(word) else {
        return Err(LineFault::Number);
    };
    if 1 <= number && number <= u64::from(MOST_SCALE) {
        Ok(Item::Scale(number as u32))
    } else {
        Err(LineFault::Limit)
    }
}

#[tactic(auto, unfolding(crate::specs::Items::item_of))]
fn walk(words: Words<'_>) -> Result<Item<'_>, LineFault>
    requires { length words ≤ MOST_WORDS }
    ensures { result ≡ checked (item_of Kind.Walk words.entry) }
{
    let rows = judge_marked(words)?;
    Ok(Item::Walk(rows))
}

#[tactic(auto, unfolding(crate::specs::Items::item_of))]
fn lemma(words: Words<'_>) -> Result<Item<'_>, LineFault>
    requires { length words ≤ MOST_WORDS }
    ensures { result ≡ checked (item_of Kind.Lemma words.entry) }
{
    let pairs = judge_pairs(words)?;
    Ok(Item::Lemma(pairs))
}

#[tactic(auto, unfolding(crate::specs::Items::item_of))]
fn least(mut words: Words<'_>) -> Result<Item<'static>, LineFault>
    ensures { result ≡ checked (item_of Kind.Least words.entry) }
{
    let Some(word) = words.next() else {
        return Err(LineFault::Number);
    };
    match whole(word) {
        None => Err(LineFault::Number),
        Some(least) => Ok(Item::Least(least)),
    }
}

#[tactic(auto, unfolding(crate::specs::Items::item_of))]
fn version(mut words: Words<'_>) -> Result<Item<'static>, LineFault>
    ensures { result ≡ checked (item_of Kind.Version words.entry) }
{
    let Some(word) = words.next() else {
        return Err(LineFault::Number);
    };
    let Some(number) = natural(word) else {
        return Err(LineFault::Number);
    };
    if 1 <= number && number <= 2 {
        Ok(Item::Version(number as u32))
    } else {
        Err(LineFault::Limit)
    }
}

#[tactic(auto, unfolding(crate::specs::Items::item_of))]
fn period(mut words: Words<'_>) -> Result<Item<'static>, LineFault>
    ensures { result ≡ checked (item_of Kind.Period words.entry) }
{
    let Some(word) = words.next() else {
        return Err(LineFault::Number);
    };
    let Some(number) = natural(word) else {
        return Err(LineFault::Number);
    };
    if 1 <= number && number <= u64::from(MOST_PERIOD) {
        Ok(Item::Period(number as u32))
    } else {
        Err(LineFault::Limit)
    }
}

#[tactic(auto, unfolding(crate::specs::Items::item_of))]
fn time(mut words: Words<'_>) -> Result<Item<'static>, LineFault>
    ensures { result ≡ checked (item_of Kind.Time words.entry) }
{
    let Some(first) = words.next() else {
        return Err(LineFault::Number);
    };
    let Some(second) = words.next() else {
        return Err(LineFault::Number);
    };
    let Some(label) = whole(first) else {
        return Err(LineFault::Number);
    };
    let Some(time) = natural(second) else {
        return Err(LineFault::Number);
    };
    if label.unsigned_abs() <= MOST_LABEL && time <= u64::from(MOST_TIME) {
        Ok(Item::Time(label, time as u32))
    } else {
        Err(LineFault::Limit)
    }
}

#[tactic(auto, unfolding(crate::specs::Items::item_of))]
fn bound(words: Words<'_>) -> Result<Item<'_>, LineFault>
    requires { length words ≤ MOST_WORDS }
    ensures { result ≡ checked (item_of Kind.Bound words.entry) }
{
    let pairs = judge_pairs(words)?;
    Ok(Item::Bound(pairs))
}

#[tactic(auto, unfolding(crate::specs::Items::item_of))]
fn nothing(words: Words<'_>) -> Result<Item<'_>, LineFault>
    requires { length words ≤ MOST_WORDS }
    ensures { result ≡ checked (item_of Kind.Nothing words.entry) }
{
    let pairs = judge_pairs(words)?;
    Ok(Item::Nothing(pairs))
}

#[tactic(auto, unfolding(crate::specs::Items::item_of))]
fn cycle(words: Words<'_>) -> Result<Item<'_>, LineFault>
    requires { length words ≤ MOST_WORDS }
    ensures { result ≡ checked (item_of Kind.Cycle words.entry) }
{
    let rows = judge_rows(words)?;
    Ok(Item::Cycle(rows))
}

#[tactic(auto, unfolding(crate::specs::Items::item_of))]
fn gap(mut words: Words<'_>) -> Result<Item<'static>, LineFault>
    ensures { result ≡ checked (item_of Kind.Gap words.entry) }
{
    let Some(word) = words.next() else {
        return Err(LineFault::Number);
    };
    let Some(cycle) = natural(word) else {
        return Err(LineFault::Number);
    };
    if is_name(cycle) {
        Ok(Item::Gap(cycle as u32))
    } else {
        Err(LineFault::Limit)
    }
}

#[tactic(auto, unfolding(crate::specs::Items::item_of))]
fn slack(mut words: Words<'_>) -> Result<Item<'static>, LineFault>
    ensures { result ≡ checked (item_of Kind.Slack words.entry) }
{
    let Some(first) = words.next() else {
        return Err(LineFault::Number);
    };
    let Some(second) = words.next() else {
        return Err(LineFault::Number);
    };
    let Some(row) = natural(first) else {
        return Err(LineFault::Number);
    };
    let Some(k) = natural(second) else {
        return Err(LineFault::Number);
    };
    if is_name(row) && k <= u64::from(MOST_SLACK) {
        Ok(Item::Slack {
            row: row as u32,
            k: k as u32,
        })
    } else {
        Err(LineFault::Limit)
    }
}

#[tactic(auto, unfolding(crate::specs::Items::item_of))]
fn offset(mut words: Words<'_>) -> Result<Item<'static>, LineFault>
    ensures { result ≡ checked (item_of Kind.Offset words.entry) }
{
    let Some(first) = words.next() else {
        return Err(LineFault::Number);
    };
    let Some(second) = words.next() else {
        return Err(LineFault::Number);
    };
    let Some(cycle) = natural(first) else {
        return Err(LineFault::Number);
    };
    let Some(k) = whole(second) else {
        return Err(LineFault::Number);
    };
    if is_name(cycle) && k.unsigned_abs() <= MOST_OFFSET {
        Ok(Item::Offset {
            cycle: cycle as u32,
            k,
        })
    } else {
        Err(LineFault::Limit)
    }
}

/// A cost, or `none`.
#[tactic(auto, unfolding(crate::specs::Items::spelt_cost))]
fn spelt_cost(word: &[u8]) -> Option<Option<u64>>
    ensures { result ≡ spelt_cost word.now }
{
    if is_word(word, "none") {
        return Some(None);
    }
    let cost = natural(word)?;
    Some(Some(cost))
}

#[tactic(auto, unfolding(crate::specs::Items::answer_from_words))]
fn answer_of(mut words: Words<'_>) -> Option<Answer>
    ensures { result ≡ answer_from_words words.entry }
{
    let first = words.next()?;
    if is_word(first, "optimal") {
        let cost = natural(words.next()?)?;
        return Some(Answer::Optimal(cost));
    }
    if is_word(first, "infeasible") {
        return Some(Answer::Infeasible);
    }
    let second = words.next()?;
    let third = words.next()?;
    let least = natural(second)?;
    let cost = spelt_cost(third)?;
    Some(Answer::Bounded { least, cost })
}

#[tactic(auto, unfolding(crate::specs::Items::item_of))]
fn answer(words: Words<'_>) -> Result<Item<'static>, LineFault>
    ensures { result ≡ checked (item_of Kind.Answer words.entry) }
{
    match answer_of(words) {
        None => Err(LineFault::Number),
        Some(answer) => Ok(Item::Answer(answer)),
    }
}

/// What the words behind the first say, where they have the form of their kind.
#[tactic(auto, unfolding(crate::specs::Items::item_of))]
pub(crate) fn judge_numbers(kind: Kind, words: Words<'_>) -> Result<Item<'_>, LineFault>
    requires { length words ≤ MOST_WORDS }
    ensures { result ≡ checked (item_of kind words.entry) }
{
    match kind {
        Kind::Front => Err(LineFault::Number),
        Kind::Scale => scale(words),
        Kind::Walk => walk(words),
        Kind::Lemma => lemma(words),
        Kind::Least => least(words),
        Kind::Version => version(words),
        Kind::Period => period(words),
        Kind::Answer => answer(words),
        Kind::Time => time(words),
        Kind::Cycle => cycle(words),
        Kind::Slack => slack(words),
        Kind::Offset => offset(words),
        Kind::Bound => bound(words),
        Kind::Nothing => nothing(words),
        Kind::Gap => gap(words),
        Kind::Propagated => Ok(Item::Propagated),
        Kind::End => Ok(Item::End),
    }
}
