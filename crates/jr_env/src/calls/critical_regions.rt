//! The calls of the Java Native Interface that open a critical region, over any steps.
use crate::critical_region::Region;
use crate::env::Env;
use crate::levels_beside;
use jr_steps::Steps;
use jr_word::{Fault, Handle};

impl<S: Steps> Env<S> {
    ghost use Rattle.std.specs.Prelude.{◌≡◌, IfOk};
    ghost use Rattle.std.specs.Borrow.{sem};
    ghost use Rattle.jr_model.specs.CallPrograms.{get_array_critical, get_string_critical};
    ghost use Rattle.jr_critical.specs.Levels.{opened_by};
    ghost use Rattle.jr_env.specs.Envs.{IsOutside};
    ghost use Rattle.jr_env.specs.StandingRegions.{StandsSince};
    ghost use Rattle.jr_env.specs.Criticals.{env_of, held_of, levels_of, rests_in, WasOpened};

    /// Opens a critical region, with the array at its first level. The thread is within until that level is released. (JNI Specification, chapter 4, "GetPrimitiveArrayCritical")
    ///
    /// # Errors
    ///
    /// That of the gate; those of a handle to an object; E5 where it is to a plain object or a string; E6 where it is to an array of objects.
    ///
    /// Nothing has changed then, and the thread stands outside.
    ///
    /// # Operations
    ///
    /// At most 3: the entry, a look at the slot of a global or weak handle, and one at the array's header. Where it is refused, the exit too.
    #[inline(always)]
    pub fn get_array_critical(&mut self, array: Handle) -> Result<Region<'_, S>, Fault>
        ensures* rests { sem 𝓛 (rests_in S.row S.Steps array.0 (opened_by (get_array_critical 0)) self.entry result) }
        ensures same_reference { IfOk result (λ r. (env_of r).ghost_name ≡ self.entry.ghost_name) }
        ensures opened { IfOk result (λ r. WasOpened self.old r array.0 (opened_by (get_array_critical 0))) }
        ensures region { IfOk result (λ r. IsOutside self.old → StandsSince self.old.held (held_of r) (levels_of r)) }
    {
        let levels = levels_beside::open_array(self, array)?;
        Ok(Region::over(self, levels))
    }

    /// Opens a critical region, with the string at its first level. The thread is within until that level is released. (JNI Specification, chapter 4, "GetStringCritical")
    ///
    /// # Errors
    ///
    /// That of the gate; those of a handle to an object; E4 where it is to no string.
    ///
    /// Nothing has changed then, and the thread stands outside.
    ///
    /// # Operations
    ///
    /// At most 3: the entry, a look at the slot of a global or weak handle, and one at the string's header. Where it is refused, the exit too.
    #[inline(always)]
    pub fn get_string_critical(&mut self, string: Handle) -> Result<Region<'_, S>, Fault>
        ensures* rests { sem 𝓛 (rests_in S.row S.Steps string.0 (opened_by (get_string_critical 0)) self.entry result) }
        ensures same_reference { IfOk result (λ r. (env_of r).ghost_name ≡ self.entry.ghost_name) }
        ensures opened { IfOk result (λ r. WasOpened self.old r string.0 (opened_by (get_string_critical 0))) }
        ensures region { IfOk result (λ r. IsOutside self.old → StandsSince self.old.held (held_of r) (levels_of r)) }
    {
        let levels = levels_beside::open_string(self, string)?;
        Ok(Region::over(self, levels))
    }
}
