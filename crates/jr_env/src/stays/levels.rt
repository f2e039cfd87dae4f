//! A critical region that is opened in a stay, over any steps. It takes the stay's end over, and gives it back where its levels alone are given up.
use crate::critical_region::Region;
use crate::env::Env;
use crate::stay::Stay;
use jr_critical::Levels;
use jr_gate::Inside;
use jr_steps::Steps;
use jr_word::{Fault, Handle};

impl<'e, S: Steps> Stay<'e, S> {
    ghost use Rattle.std.specs.Prelude.{◌≡◌, IfErr, IfOk};
    ghost use Rattle.jr_model.specs.CallPrograms.{get_array_critical, get_string_critical};
    ghost use Rattle.jr_critical.specs.Levels.{opened_within};
    ghost use Rattle.jr_env.specs.Criticals.{env_of};
    ghost use Rattle.jr_env.specs.LentStays.{env_in};
    ghost use Rattle.jr_env.specs.StayLevels.{WasNotOpenedIn, WasOpenedIn};

    /// Opens a critical region in the stay, with the array at its first level. `into_stay` of the region gives the stay back; where its first level is released the stay ends with it.
    /// (JNI Specification, chapter 4, "GetPrimitiveArrayCritical")
    ///
    /// # Errors
    ///
    /// Those of a handle to an object; E5 where it is to a plain object or a string; E6 where it is to an array of objects.
    ///
    /// The stay is handed back, and stands.
    ///
    /// # Operations
    ///
    /// At most 2: a look at the slot of a global or weak handle, and one at the array's header. It takes none at the gate.
    #[inline(always)]
    pub fn get_array_critical(self, array: Handle) -> Result<Region<'e, S>, (Stay<'e, S>, Fault)>
        ensures same_reference { IfOk result (λ r. (env_of r).ghost_name ≡ (env_in self.entry).ghost_name) }
        ensures opened { IfOk result (λ r. WasOpenedIn self.entry r array.0 (opened_within (get_array_critical 0))) }
        ensures same_stay { IfErr result (λ e. (env_in e.0).ghost_name ≡ (env_in self.entry).ghost_name) }
        ensures refused { IfErr result (λ e. WasNotOpenedIn self.entry e.0 array.0 (opened_within (get_array_critical 0)) e.1) }
    {
        let Stay { env, inside } = self;
        match env.open_array_within(inside, array) {
            Ok(levels) => Ok(Region::over(env, levels)),
            Err((inside, fault)) => Err((Stay::over(env, inside), fault)),
        }
    }

    /// Opens a critical region in the stay, with the string at its first level. `into_stay` of the region gives the stay back; where its first level is released the stay ends with it.
    /// (JNI Specification, chapter 4, "GetStringCritical")
    ///
    /// # Errors
    ///
    /// Those of a handle to an object; E4 where it is to no string.
    ///
    /// The stay is handed back, and stands.
    ///
    /// # Operations
    ///
    /// At most 2: a look at the slot of a global or weak handle, and one at the string's header. It takes none at the gate.
    #[inline(always)]
    pub fn get_string_critical(self, string: Handle) -> Result<Region<'e, S>, (Stay<'e, S>, Fault)>
        ensures same_reference { IfOk result (λ r. (env_of r).ghost_name ≡ (env_in self.entry).ghost_name) }
        ensures opened { IfOk result (λ r. WasOpenedIn self.entry r string.0 (opened_within (get_string_critical 0))) }
        ensures same_stay { IfErr result (λ e. (env_in e.0).ghost_name ≡ (env_in self.entry).ghost_name) }
        ensures refused { IfErr result (λ e. WasNotOpenedIn self.entry e.0 string.0 (opened_within (get_string_critical 0)) e.1) }
    {
        let Stay { env, inside } = self;
        match env.open_string_within(inside, string) {
            Ok(levels) => Ok(Region::over(env, levels)),
            Err((inside, fault)) => Err((Stay::over(env, inside), fault)),
        }
    }
}

impl<S: Steps> Env<S> {
    ghost use Rattle.std.specs.Prelude.{◌≡◌, IfErr, IfOk, length};
    ghost use Rattle.jr_model.specs.CallPrograms.{get_array_critical, get_string_critical};
    ghost use Rattle.jr_gate.specs.Stays.{IsOwnStay};
    ghost use Rattle.jr_critical.specs.Levels.{objects_of, opened_within, without_stay, OpensWithinOver, StandOver};
    ghost use Rattle.jr_env.specs.OpenStays.{StaysOn};
    ghost use Rattle.jr_env.specs.StayLevels.{StaysWith};

    /// Opens the first level over an array, in a stay of the thread, which goes on.
    #[inline(always)]
    fn open_array_within(
        &mut self,
        inside: Inside,
        array: Handle,
    ) -> Result<Levels, (Inside, Fault)>
        requires { IsOwnStay inside (S.facts self.old.held.steps).stands }
        ensures call { OpensWithinOver self.old.held self.new.held array.0 (opened_within (get_array_critical 0)) (without_stay result) }
        ensures frames { self.new.held.frames ≡ self.old.held.frames }
        ensures stand { IfOk result (λ v. StandOver v self.new.held × (length (objects_of v) ≡ 1)) }
        ensures with_level { IfOk result (λ v. StaysWith self.old.held self.new.held v) }
        ensures own { IfErr result (λ e. IsOwnStay e.0 (S.facts self.new.held.steps).stands) }
        ensures on { IfErr result (λ _. StaysOn self.old.held self.new.held) }
    {
        Levels::open_array_within(inside, &mut self.held, array)
    }

    /// Opens the first level over a string, in a stay of the thread, which goes on.
    #[inline(always)]
    fn open_string_within(
        &mut self,
        inside: Inside,
        string: Handle,
    ) -> Result<Levels, (Inside, Fault)>
        requires { IsOwnStay inside (S.facts self.old.held.steps).stands }
        ensures call { OpensWithinOver self.old.held self.new.held string.0 (opened_within (get_string_critical 0)) (without_stay result) }
        ensures frames { self.new.held.frames ≡ self.old.held.frames }
        ensures stand { IfOk result (λ v. StandOver v self.new.held × (length (objects_of v) ≡ 1)) }
        ensures with_level { IfOk result (λ v. StaysWith self.old.held self.new.held v) }
        ensures own { IfErr result (λ e. IsOwnStay e.0 (S.facts self.new.held.steps).stands) }
        ensures on { IfErr result (λ _. StaysOn self.old.held self.new.held) }
    {
        Levels::open_string_within(inside, &mut self.held, string)
    }
}
