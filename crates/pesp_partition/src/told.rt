//! What is told of regions.

use pesp_offset_tree::Sharpened;

/// The multiplier of a walk of the root that crosses regions, in units of the scale.
#[derive(Clone, Copy)]
pub struct Crossing {
    pub walk: u32,
    pub multiplier: i64,
}

/// A region: its rows by their places in the network, which of them are turned round, and their natural weights in units. Its
/// tree is over the rows as they are turned, and shows the least of their costs; the scale is that of its leaves. With the
/// constant that is the least of weights times slacks as the rows stand.
#[derive(Drop)]
pub struct ToldRegion {
    pub rows: Vec<u32>,
    pub turned: Vec<bool>,
    pub weights: Vec<u64>,
    pub least: u64,
    pub constant: i64,
    pub scale: u32,
    pub tree: Sharpened,
}

/// Regions, and what crosses them: the bound that all show, and the multipliers of crossing inequalities in units of the scale.
/// So many of these units make up one of weights, so that each region has this factor as its multiplier.
#[derive(Drop)]
pub struct ToldRegions {
    pub bound: u64,
    pub scale: u32,
    pub factor: u32,
    pub crossing: Vec<Crossing>,
    pub regions: Vec<ToldRegion>,
}
