//! New references, in slots that are found free.
ghost use Rattle.std.specs.Prelude.{◌≡◌, ◌≢◌, ◌<◌, ◌≤◌, ◌+◌, ◌%◌, IfOk, IfErr, IfSome, Some, None};
ghost use Rattle.jr_word.specs.declared.handle.RefKind.TheVariants.{Local};
ghost use Rattle.jr_word.specs.declared.fault.Fault.TheVariants.{RowFull};
ghost use Rattle.jr_model.specs.declared.event.Role.TheVariants.{Within};
ghost use Rattle.jr_steps.specs.Knowing.{HasObject, MayKnow};
ghost use Rattle.jr_gate.specs.Stays.{IsOwnStay};
ghost use Rattle.jr_row.specs.Searching.{GoesRound, InTurn, Searched};

use jr_gate::Inside;
use jr_steps::{SlotLoad, Steps};
use jr_word::{Fault, HandleParts, RefKind, SlotParts};

/// The slots from first on and before last are tried one after the other, until one is won.
#[inline(always)]
fn search<S: Steps>(
    steps: &mut S,
    kind: RefKind,
    object: u16,
    first: u32,
    last: u32,
) -> Option<HandleParts>
    requires role { (S.facts steps.old).stands.role ≡ Within }
    requires range { (first ≤ last) × (last ≤ (S.facts steps.old).stands.config.slots) }
    requires kind { kind ≢ Local }
    requires object { MayKnow S.facts steps.old (HasObject object) }
    ensures searched { Searched S.facts steps.old steps.new kind object (InTurn first last) first last result }
    ensures index { IfSome result (λ h. h.index < (S.facts steps.old).stands.config.slots) }
    ensures hint { (S.facts steps.new).hint ≡ (S.facts steps.old).hint }
{
    for slot in first..last {
        let index = slot as u16;
        let SlotParts::Free { serial } = steps.see_slot(index, SlotLoad::Probe) else {
            continue;
        };
        if let Ok(()) = steps.claim(index, serial, kind, object) {
            return Some(HandleParts {
                kind,
                serial,
                index,
                owner: 0,
            });
        }
    }
    None
}

/// The slot after this one, and slot 0 after the last.
#[inline(always)]
fn slot_after(index: u16, slots: u32) -> u16
    requires { (index < slots) × (slots ≤ 65536) }
    ensures { (result ≡ (index + 1) % slots) × (result < slots) }
{
    let next = u32::from(index) + 1;
    if next == slots { 0 } else { next as u16 }
}

/// A new reference to a present object, in the first slot that is found free from the hint on, round to the slot before it. The next search begins behind the new reference.
///
/// # Errors
///
/// E8 where each slot was occupied when it was tried, or later in the call.
///
/// The next search begins where this one did, and what the pass holds is as it was.
///
/// # Operations
///
/// Just its events, at most two a slot: a look, and an exchange where it was free.
#[inline(always)]
pub fn create<S: Steps>(
    steps: &mut S,
    inside: &Inside,
    kind: RefKind,
    object: u16,
) -> Result<HandleParts, Fault>
    requires stay { IsOwnStay inside.now (S.facts steps.old).stands }
    requires kind { kind ≢ Local }
    requires object { MayKnow S.facts steps.old (HasObject object) }
    ensures ok { IfOk result (λ h. Searched S.facts steps.old steps.new kind object (GoesRound (S.facts steps.old).hint (S.facts steps.old).stands.config.slots) 0
        (S.facts steps.old).stands.config.slots (Some h)) }
    ensures err { IfErr result (λ e. (e ≡ RowFull) × Searched S.facts steps.old steps.new kind object (GoesRound (S.facts steps.old).hint (S.facts steps.old).stands.config.slots) 0
        (S.facts steps.old).stands.config.slots None) }
    ensures next { IfOk result (λ h. (S.facts steps.new).hint ≡ (h.index + 1) % (S.facts steps.old).stands.config.slots) }
    ensures stays { IfErr result (λ e. (S.facts steps.new).hint ≡ (S.facts steps.old).hint) }
{
    let slots = steps.config().slots;
    let hint = u32::from(steps.hint());
    let found = match search(steps, kind, object, hint, slots) {
        None => search(steps, kind, object, 0, hint),
        above => above,
    };
    let Some(handle) = found else {
        return Err(Fault::RowFull);
    };
    steps.keep_hint(slot_after(handle.index, slots));
    Ok(handle)
}
