// The register of activations, by hour, first minute, number of arrival.
ghost use Rattle.std.specs.Prelude.{◌≡◌, true, length};
ghost use Rattle.ordered.specs.Listed.{items, space_of};
ghost use Rattle.ordered.specs.Order.{rises};
ghost use Rattle.market.specs.Figures.{most_activations};
ghost use Rattle.market.specs.Order.{activation_before};
ghost use Rattle.register.specs.Arrivals.{arrived_below};

use market::Activation;
use ordered::OrderedList;

// The table of notices holds its list alike, but what else holds of the two, and their calls, differ.
#[derive(Drop)]
pub struct Register {
    pub(crate) activations: OrderedList<Activation>,
    ghost rising: { rises activation_before (items activations) ≡ true },
    ghost room: { space_of activations ≡ most_activations },
    ghost numbered: { arrived_below (length (items activations)) (items activations) ≡ true },
}
