//! A region as a network of its own.

use crate::division::Division;
use crate::multiplied::Multiplied;
use crate::weights::Weights;
use pesp_inequalities::Pass;
use pesp_network::{NetRow, Network};
use pesp_problem::Memory;
use std::alloc::{AllocError, Global};

/// A region: its rows by their places in the whole network, and which of them are turned round. The slack of a turned row is
/// the span less its slack, and its weight is above 0. The network has the rows as they are turned. Each event is one of the
/// whole network. The constant is to be added to costs of the network; it is the sum of weight times span of turned rows. The
/// walks are those of the root's inequalities inside.
#[derive(Drop)]
pub struct Region {
    pub rows: Vec<u32>,
    pub turned: Vec<bool>,
    pub network: Network,
    pub events: Vec<u32>,
    pub constant: i64,
    pub walks: Vec<Vec<Pass>>,
}

/// What regions are made from: the whole network, its division, the inequalities, and the weights that are left.
#[derive(Clone, Copy)]
pub struct WholeNetwork<'a> {
    pub network: &'a Network,
    pub division: &'a Division,
    pub inequalities: &'a [Multiplied],
    pub weights: &'a Weights,
}

/// A region while it is made, with the places of rows and of events in it.
#[derive(Drop)]
struct Making {
    rows: Vec<u32>,
    turned: Vec<bool>,
    net_rows: Vec<NetRow>,
    events: Vec<u32>,
    constant: i64,
    walks: Vec<Vec<Pass>>,
    places: Vec<Option<u32>>,
    local: Vec<Option<u32>>,
}

/// A row in the other direction.
fn turned_row(row: NetRow) -> NetRow {
    let upper = row.lower.saturating_add(i64::from(row.span));
    NetRow {
        tail: row.head,
        head: row.tail,
        lower: upper.saturating_neg(),
        ..row
    }
}

/// The amount of a weight.
fn amount_of(weight: i128) -> u64 {
    let amount = if weight < 0 {
        weight.wrapping_neg()
    } else {
        weight
    };
    u64::try_from(amount).unwrap_or(u64::MAX)
}

/// The number of a place.
fn number_of(place: usize) -> u32 {
    u32::try_from(place).unwrap_or(u32::MAX)
}

impl Making {
    /// No row yet.
    fn new(alloc: Global, rows: usize, events: usize) -> Result<Making, AllocError> {
        let places = vec![in alloc; None; rows]?;
        let local = vec![in alloc; None; events]?;
        Ok(Making {
            rows: Vec::new(alloc),
            turned: Vec::new(alloc),
            net_rows: Vec::new(alloc),
            events: Vec::new(alloc),
            constant: 0,
            walks: Vec::new(alloc),
            places,
            local,
        })
    }

    /// The number of an event in the region, which it gets where it has none yet.
    fn event(&mut self, event: u32) -> Result<u32, AllocError> {
        if let Some(Some(number)) = self.local.get(event as usize).copied() {
            return Ok(number);
        }
        let number = number_of(self.events.len());
        self.events.push(event)?;
        if let Some(slot) = self.local.get_mut(event as usize) {
            *slot = Some(number);
        }
        Ok(number)
    }

    /// Takes in a row of this weight.
    fn take(&mut self, place: u32, row: NetRow, weight: i128) -> Result<(), AllocError> {
        let tail = self.event(row.tail)?;
        let head = self.event(row.head)?;
        let own = NetRow {
            tail,
            head,
            weight: amount_of(weight),
            origin: place.saturating_add(1),
            ..row
        };
        if let Some(slot) = self.places.get_mut(place as usize) {
            *slot = Some(number_of(self.rows.len()));
        }
        self.rows.push(place)?;
        self.put(own, weight)
    }

    /// Puts in a row, turned where its weight is below 0.
    fn put(&mut self, own: NetRow, weight: i128) -> Result<(), AllocError> {
        let is_turned = weight < 0;
        self.turned.push(is_turned)?;
        if !is_turned {
            self.net_rows.push(own)?;
            return Ok(());
        }
        let part = weight.saturating_mul(i128::from(own.span));
        let part = i64::try_from(part).unwrap_or(i64::MIN);
        self.constant = self.constant.saturating_add(part);
        self.net_rows.push(turned_row(own))?;
        Ok(())
    }

    /// Takes in the rows of a region.
    fn take_rows(&mut self, whole: WholeNetwork<'_>, region: u32) -> Result<(), AllocError> {
        for (place, row) in whole.network.rows().iter().enumerate() {
            let number = number_of(place);
            if whole.division.of_row(number) == Some(region)
                && let Some(weight) = whole.weights.rows.get(place)
            {
                self.take(number, *row, *weight)?;
            }
        }
        Ok(())
    }

    /// A pass in the region.
    fn pass(&self, pass: Pass) -> Option<Pass> {
        let row = self.places.get(pass.row as usize).copied()??;
        let is_turned = self.turned.get(row as usize).copied()?;
        Some(Pass {
            row,
            forwards: pass.forwards != is_turned,
            flipped: pass.flipped != is_turned,
        })
    }

    /// The passes of a walk in the region.
    fn passes(&self, alloc: Global, passes: &[Pass]) -> Result<Vec<Pass>, AllocError> {
        let mut own = Vec::with_capacity(alloc, passes.len())?;
        for pass in passes {
            if let Some(pass) = self.pass(*pass) {
                own.push(pass)?;
            }
        }
        Ok(own)
    }

    /// Takes in the walks of inequalities inside a region.
    fn take_walks(
        &mut self,
        alloc: Global,
        whole: WholeNetwork<'_>,
        region: u32,
    ) -> Result<(), AllocError> {
        for inequality in whole.inequalities {
            if whole.division.home(inequality) == Some(region) {
                let passes = self.passes(alloc, &inequality.inequality.passes)?;
                self.walks.push(passes)?;
            }
        }
        Ok(())
    }

    /// Takes in the rows of a region, and the walks of inequalities inside it.
    fn fill(
        &mut self,
        alloc: Global,
        whole: WholeNetwork<'_>,
        region: u32,
    ) -> Result<(), AllocError> {
        self.take_rows(whole, region)?;
        self.take_walks(alloc, whole, region)
    }

    /// The region of the rows that were taken in; None where they are no network's.
    fn region(self, alloc: Global, period: u32) -> Option<Region> {
        let Making {
            rows,
            turned,
            net_rows,
            events,
            constant,
            walks,
            places,
            local,
        } = self;
        drop(places);
        drop(local);
        match Network::new(alloc, period, number_of(events.len()), net_rows) {
            Ok(network) => Some(Region {
                rows,
                turned,
                network,
                events,
                constant,
                walks,
            }),
            Err(_) => {
                drop(walks);
                None
            }
        }
    }
}

impl Region {
    /// A region by its number; None where its rows are no network's.
    pub fn of(
        alloc: Global,
        whole: WholeNetwork<'_>,
        region: u32,
    ) -> Result<Option<Region>, Memory> {
        let network = whole.network;
        let mut making = Making::new(alloc, network.rows().len(), network.events() as usize)?;
        match making.fill(alloc, whole, region) {
            Ok(()) => Ok(making.region(alloc, network.period())),
            Err(_) => {
                drop(making);
                Err(Memory)
            }
        }
    }

    /// The times of the region's events, of those of the whole network.
    pub fn times(&self, alloc: Global, times: &[u32]) -> Result<Vec<u32>, AllocError> {
        let mut own = Vec::with_capacity(alloc, self.events.len())?;
        for event in &self.events {
            own.push(times.get(*event as usize).copied().unwrap_or(0))?;
        }
        Ok(own)
    }
}
