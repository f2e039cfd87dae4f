//! Steps of an owner whose room a type stands for: a note of such is of that room by its type.
ghost use Rattle.std.specs.Prelude.{◌≡◌, Some};
ghost use Rattle.std.specs.Arc.{arc_value};
ghost use Rattle.jr_owned.specs.Owners.{owner_of};

use crate::owned::{OwnedCells, OwnedSteps};
use jr_rule::{OfSite, Site, StepsOver};
use std::marker::PhantomData;

/// The steps of an owner of the site's room.
pub type OwnedStepsOf<Q> = StepsOver<OwnedCells, OfSite<Q>>;

/// The steps of an owner, whose room is the site's.
pub fn of_site<Q: Site>(steps: OwnedSteps) -> OwnedStepsOf<Q>
    requires { Some steps.cells.cells.seat.table_id ≡ Q.room }
    ensures room { arc_value result.cells.room ≡ arc_value steps.cells.room }
    ensures pass { owner_of result ≡ owner_of steps }
{
    let place = OfSite { site: PhantomData };
    let StepsOver {
        cells,
        role,
        fresh,
        hint,
        place: _,
    } = steps;
    StepsOver {
        cells,
        role,
        fresh,
        hint,
        place,
    }
}

/// The steps of an owner of the site's room, as any owner's.
pub fn of_any_site<Q: Site>(steps: OwnedStepsOf<Q>) -> OwnedSteps
    ensures room { arc_value result.cells.room ≡ arc_value steps.cells.room }
    ensures pass { owner_of result ≡ owner_of steps }
    ensures site { Some result.cells.cells.seat.table_id ≡ Q.room }
{
    let StepsOver {
        cells,
        role,
        fresh,
        hint,
        place: _,
    } = steps;
    StepsOver {
        cells,
        role,
        fresh,
        hint,
        place: (),
    }
}
