//! What is paid for losses: by a table of prices, where leaves are folded, and else a dollar for each that is lost.
ghost use Rattle.std.specs.Prelude.{◌≡◌, ℕ, ◌+◌, ◌<◌, ◌≤◌, min, slice_index};
ghost use Rattle.std.specs.Option.{option_copied};
ghost use Rattle.dg_graph.specs.declared.graph.TheConstants.{MAX_VERTICES};
ghost use Rattle.dg_rank.specs.Prices.{paid, ArePrices, AreTold, AreCosts};

use dg_graph::MAX_VERTICES;

/// A price for no dollar, for one, and so on: for so many numbers. A test within the limits loses at most 104 dollars on four
/// vertices; with fewer vertices it may lose more, and boxes tell.
pub(crate) const MAX_PLACES: usize = 105;

/// What a vertex pays for no dollar, for one, and so on, lost there and in all that is folded into it.
pub(crate) type PriceRow = [u16; MAX_PLACES];

/// What each vertex pays, for up to so many dollars.
#[derive(Drop)]
pub(crate) struct Prices {
    pub(crate) rows: [PriceRow; MAX_VERTICES],
    pub(crate) most: usize,
}

/// What a vertex pays for so many dollars more than were lost there.
pub(crate) fn price_of_more(
    prices: Option<&Prices>,
    lost: &[u16; 16],
    v: usize,
    dollars: u16,
) -> u16
    requires vertex { v < MAX_VERTICES }
    requires told { AreTold (option_copied prices) lost.now dollars }
    ensures { result ≡ paid (option_copied prices.entry) lost.now v dollars }
{
    match prices {
        None => dollars,
        Some(table) => {
            let row = &table.rows[v];
            let before = lost[v];
            row[usize::from(before + dollars)] - row[usize::from(before)]
        }
    }
}

/// What each vertex pays for as many dollars as it may lose: as it has room for, and of those that are left to lose.
pub(crate) fn most_costs(
    prices: Option<&Prices>,
    lost: &[u16; 16],
    room: &[u16; 16],
    dollars: u16,
) -> [u16; 16]
    requires told { AreTold (option_copied prices) lost.now dollars }
    ensures { AreCosts (paid (option_copied prices.entry) lost.now) room.now dollars result }
{
    let most = lesser(room, &[dollars; 16]);
    match prices {
        None => most,
        Some(table) => costs_by_table(table, lost, &most),
    }
}

/// What each vertex pays by a table for so many dollars more than were lost there.
fn costs_by_table(table: &Prices, lost: &[u16; 16], dollars: &[u16; 16]) -> [u16; 16]
    requires table { ArePrices table.now }
    requires told { (v : ℕ) → v < MAX_VERTICES → slice_index lost.now v + slice_index dollars.now v ≤ table.now.most }
    ensures { (v : ℕ) → v < MAX_VERTICES →
        slice_index result v ≡ paid (Some table.now) lost.now v (slice_index dollars.now v) }
{
    let mut costs = [0; 16];
    for v in 0..MAX_VERTICES {
        let (row, before) = (&table.rows[v], lost[v]);
        costs[v] = row[usize::from(before + dollars[v])] - row[usize::from(before)];
    }
    costs
}

/// The lesser of two numbers, for each place.
pub(crate) fn lesser(first: &[u16; 16], second: &[u16; 16]) -> [u16; 16]
    ensures { (v : ℕ) → v < MAX_VERTICES → slice_index result v ≡ min (slice_index first.now v) (slice_index second.now v) }
{
    let mut least = [0; 16];
    for v in 0..MAX_VERTICES {
        least[v] = first[v].min(second[v]);
    }
    least
}

/// The fewest dollars for which a vertex pays more than it holds, if it can't pay for `most`. No clause says so: any number
/// up to that serves.
pub(crate) fn first_unpaid(
    prices: Option<&Prices>,
    lost: &[u16; 16],
    v: usize,
    held: u32,
    most: u16,
) -> u16
    requires vertex { v < MAX_VERTICES }
    requires some { 0 < most }
    requires told { AreTold (option_copied prices) lost.now most }
    ensures some { 0 < result }
    ensures few { result ≤ most }
{
    match prices {
        None => held.min(u32::from(most) - 1) as u16 + 1,
        Some(table) => {
            let row = &table.rows[v];
            let before = usize::from(lost[v]);
            let rich = held.saturating_add(u32::from(row[before]));
            for dollars in 1..most {
                if u32::from(row[before + usize::from(dollars)]) > rich {
                    return dollars;
                }
            }
            most
        }
    }
}
