//! How events are called in a picture or on a page.

use crate::escaped::Escaped;
use crate::shortened::Shortened;
use pesp_report::Names;
use std::fmt;

/// How events are called: by their names where these are known, and else by their labels.
#[derive(Clone, Copy)]
pub struct Labels<'a> {
    names: Option<&'a Names>,
}

/// An event's name, or its label where it has none.
#[derive(Clone, Copy, Drop)]
pub struct NameLabel<'a> {
    label: i64,
    name: &'a str,
}

/// What an event is called in a column.
#[derive(Clone, Copy, Drop)]
pub struct ColumnLabel<'a> {
    label: i64,
    name: &'a str,
}

/// An event's label, with its name behind it where that is known.
#[derive(Clone, Copy, Drop)]
pub struct WholeLabel<'a> {
    label: i64,
    name: &'a str,
}

impl<'a> Labels<'a> {
    /// The events are called by these names, where there are any.
    pub fn of(names: Option<&'a Names>) -> Labels<'a> {
        Labels { names }
    }

    /// The name of an event; empty where it has none.
    fn name(&self, label: i64) -> &'a str {
        let Some(names) = self.names else {
            return "";
        };
        match names.find(label) {
            Some(found) => found.name.as_str(),
            None => "",
        }
    }

    /// An event's name, or its label where it has none.
    pub fn named(&self, label: i64) -> NameLabel<'a> {
        let name = self.name(label);
        NameLabel { label, name }
    }

    /// What an event is called in a column.
    pub fn called(&self, label: i64) -> ColumnLabel<'a> {
        let name = self.name(label);
        ColumnLabel { label, name }
    }

    /// An event's label, with its name.
    pub fn whole(&self, label: i64) -> WholeLabel<'a> {
        let name = self.name(label);
        WholeLabel { label, name }
    }
}

impl ColumnLabel<'_> {
    /// How many characters it takes, where the label takes so many.
    pub fn characters(&self, label: u32) -> u32 {
        if self.name.is_empty() {
            return label;
        }
        Shortened(self.name).characters()
    }
}

impl fmt::Display for NameLabel<'_> {
    fn fmt<W: fmt::Write>(&self, f: &mut fmt::Formatter<W>) -> fmt::Result {
        let NameLabel { label, name } = *self;
        if name.is_empty() {
            return write!(f, "{label}");
        }
        let name = Escaped(name);
        write!(f, "{name}")
    }
}

impl fmt::Display for ColumnLabel<'_> {
    fn fmt<W: fmt::Write>(&self, f: &mut fmt::Formatter<W>) -> fmt::Result {
        let ColumnLabel { label, name } = *self;
        if name.is_empty() {
            return write!(f, "{label}");
        }
        let name = Shortened(name);
        write!(f, "{name}")
    }
}

impl fmt::Display for WholeLabel<'_> {
    fn fmt<W: fmt::Write>(&self, f: &mut fmt::Formatter<W>) -> fmt::Result {
        let WholeLabel { label, name } = *self;
        if name.is_empty() {
            return write!(f, "{label}");
        }
        let name = Escaped(name);
        write!(f, "{label} ({name})")
    }
}
