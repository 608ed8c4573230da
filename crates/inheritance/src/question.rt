// The owner question: when it is proper.
ghost use Rattle.std.specs.Prelude.{◌≡◌};
ghost use Rattle.std.specs.List.{list_all, list_any};
ghost use Rattle.market.specs.Rows.{is_waiting};
ghost use Rattle.inheritance.specs.Questions.{standing_fits, question_fits};

use market::place::Place;
use market::sizes::Sizes;
use market::standing::Standing;
use succession::range::place_fits;
use succession::row::waiting;

/// Whether a standing has no place out of range.
fn standing_fits(places: u16, standing: Standing) -> bool
    ensures { result ≡ standing_fits places standing }
{
    match standing {
        Standing::Placed(place) => place_fits(places, place),
        Standing::Waiting | Standing::Unplaced => true,
    }
}

/// Whether no standing of a row has a place out of range.
fn row_fits(places: u16, row: &[Standing]) -> bool
    ensures { result ≡ list_all (standing_fits places) row.now }
{
    row.iter().all(|standing| standing_fits(places, *standing))
}

/// Whether somebody waits in a row.
fn somebody_waits(row: &[Standing]) -> bool
    ensures { result ≡ list_any is_waiting row.now }
{
    row.iter().any(|standing| waiting(*standing))
}

/// Whether the owner question is proper: the row has an entry for each agent and no place out of range, somebody waits
/// in it, and the place asked about is in range.
pub fn question_fits(sizes: Sizes, row: &[Standing], place: Place) -> bool
    ensures { result ≡ question_fits sizes.agents sizes.places row.now place }
{
    row.len() == usize::from(sizes.agents)
        && row_fits(sizes.places, row)
        && somebody_waits(row)
        && place_fits(sizes.places, place)
}
