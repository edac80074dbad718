// The panel, by what each stop has to show.
ghost use Rattle.std.specs.Prelude.{◌≡◌, ℕ, ◌<◌, None};
ghost use Rattle.model.specs.Limits.{stops};
ghost use Rattle.agenda.specs.Meaning.{shown_at, greatest};
ghost use Rattle.agenda.specs.Slots.{changed};

use crate::agenda::Agenda;
use crate::offer::Offer;
use model::Production;

// For each stop its oldest pending production, or none.
#[derive(Drop)]
pub struct Panel {
    offers: Agenda<Offer>,
}

impl Panel {
    // No stop has anything to show.
    pub fn new() -> Panel
        ensures { (s : ℕ) → shown_at result s ≡ None }
    {
        Panel {
            offers: Agenda::new(),
        }
    }

    // A stop's oldest production is now this, or none. A number that is no stop changes nothing.
    pub fn set(&mut self, stop: u16, shown: Option<Production>)
        ensures { shown_at self.new ≡ changed stop shown (shown_at self.old) }
    {
        let offer = shown.map(|production| Offer { production });
        self.offers.set(stop, offer);
    }

    // The production with the greatest amount, and its stop: ties go to the lowest stop.
    pub fn first(&self) -> Option<(u16, Production)>
        ensures { result ≡ greatest (shown_at self.now) }
    {
        let first = self.offers.least();
        first.map(|(stop, offer)| (stop, offer.production))
    }

    // What a stop shows.
    pub fn at(&self, stop: u16) -> Option<Production>
        ensures { stop < stops → result ≡ shown_at self.now stop }
    {
        self.offers.at(stop).map(|offer| offer.production)
    }
}
