// A production as the panel ranks it: the greatest amount comes first. The order is by hand: a derive would compare all
// that a production has.
ghost use Rattle.std.specs.Prelude.{refl};
ghost use Rattle.std.specs.Cmp.{eq_by_cmp_equiv, partial_equiv_from_equiv, partial_order_from_total};
ghost use Rattle.std.specs.Ordering.{as_partial_cmp, eq_by_cmp};
ghost use Rattle.agenda.specs.Orders.{offer_order, offer_total};

use model::Production;
use std::cmp::Ordering;

#[derive(Clone, Copy)]
pub struct Offer {
    pub production: Production,
}

impl PartialEq for Offer {
    ghost eq = { eq_by_cmp offer_order };

    ghost laws = { partial_equiv_from_equiv (eq_by_cmp_equiv offer_total) };

    fn eq(&self, other: &Offer) -> bool {
        self.cmp(other).is_eq()
    }
}

impl Eq for Offer {
    ghost laws = { eq_by_cmp_equiv offer_total };
}

impl PartialOrd for Offer {
    ghost partial_cmp = { as_partial_cmp offer_order };

    ghost laws = { partial_order_from_total offer_total };

    fn partial_cmp(&self, other: &Offer) -> Option<Ordering> {
        Some(self.cmp(other))
    }
}

impl Ord for Offer {
    ghost cmp = { offer_order };

    ghost total = { offer_total };

    ghost matches_partial_cmp = { λ _ _. refl };

    ghost matches_eq = { λ _ _. refl };

    fn cmp(&self, other: &Offer) -> Ordering {
        other.production.amount.cmp(&self.production.amount)
    }
}
