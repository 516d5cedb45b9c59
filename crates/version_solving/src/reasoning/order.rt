//! The order in which names are chosen.

use crate::{Demand, Documents, Result};
use std::alloc::Global;

/// Which of the names that are needed is chosen first.
#[derive(Clone, Copy, Drop)]
pub enum Order {
    /// That with the fewest candidates.
    FewCandidates,
    /// That of most demands.
    ManyAsk,
    /// That of the fewest demands.
    FewAsk,
}

/// Returns the weight of each name: the least one is chosen first.
pub fn weights_of(
    alloc: Global,
    root: &[Demand],
    documents: &Documents,
    order: Order,
) -> Result<Vec<usize>> {
    let mut weights = Vec::with_capacity(alloc, documents.packages.len())?;
    for package in &documents.packages {
        weights.push(match order {
            Order::FewCandidates => package.candidates.len(),
            Order::ManyAsk => usize::MAX,
            Order::FewAsk => 0,
        })?;
    }
    weigh(&mut weights, root, order);
    for package in &documents.packages {
        for candidate in &package.candidates {
            weigh(&mut weights, &candidate.demands, order);
        }
    }
    Ok(weights)
}

/// Changes the weights of the names of demands.
fn weigh(weights: &mut [usize], demands: &[Demand], order: Order) {
    for demand in demands {
        if let Some(weight) = weights.get_mut(demand.name) {
            *weight = match order {
                Order::FewCandidates => *weight,
                Order::ManyAsk => weight.saturating_sub(1),
                Order::FewAsk => weight.saturating_add(1),
            };
        }
    }
}
