//! Pairs for several clients, put into an outlet one after another.

ghost use Rattle.port.specs.Chain.{ChainLaws, OffersPut};

use crate::{Offer, Outlet};

/// Puts the pairs one after another, each for its client, and answers how many were refused.
pub fn put_offers<O: Outlet>(outlet: &mut O, offers: &[Offer]) -> usize
    ensures { OffersPut offers.now result (O.holding outlet.old) (O.holding outlet.new) }
{
    let mut refused = 0;
    for offer in offers {
        if outlet.put(offer.client, offer.pair).is_err() {
            refused += 1;
        }
    }
    refused
}

/// The laws of every chain of puts, also of those that other calls make.
#[tactic(auto, using(crate::proofs::Chains::chain_laws_hold))]
pub fn chain_laws()
    ensures { ChainLaws }
{}
