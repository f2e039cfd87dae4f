//! Objects that move down to words that nobody uses any more.
ghost use Rattle.std.specs.Prelude.{◌≡◌, ◌≤◌, ◌+◌, []};
ghost use Rattle.jr_word.specs.Header.{IsHeader};
ghost use Rattle.jr_model.specs.declared.event.Role.TheVariants.{Collecting};
ghost use Rattle.jr_steps.specs.Collecting.{placed, ShowsPlaced};
ghost use Rattle.jr_steps.specs.Knowing.{MayKnow};
ghost use Rattle.jr_compact.specs.Counting.{SawWithin};
ghost use Rattle.jr_compact.specs.Sliding.{CanSlide};

use jr_steps::Steps;
use jr_word::HeaderParts;

/// Moves an object down to a place, element by element from the first on, since the two places may overlap, and then its header. No step of it is one of the machine.
pub(crate) fn slide<S: Steps>(steps: &mut S, object: u16, header: HeaderParts, place: u32)
    requires role { (S.facts steps.old).stands.role ≡ Collecting }
    requires number { (1 ≤ object) × (object ≤ (S.facts steps.old).stands.config.objects) }
    requires header { IsHeader (placed header place) }
    requires can { MayKnow S.facts steps.old (CanSlide object header place) }
    ensures { SawWithin S.facts (λ j. header.length + header.length + 1) steps.old steps.new (CanSlide object header place) (ShowsPlaced object header place) }
{
    for index in 0..header.length {
        let word = steps.scan_element(object, header, index);
        steps.move_element(object, header, place, index, word);
    }
    steps.set_header(object, header, place);
}
