//! Laws of the definitions, as contracts of functions that do nothing.

ghost use Rattle.std.specs.Prelude.{ℕ, List};
ghost use Rattle.dp_tree.specs.Inlined.{IsInlined};
ghost use Rattle.dp_profile.specs.declared.Profile.{Profile as profile_of_regions};
ghost use Rattle.dp_profile.specs.ProfileFits.{ProfileFits};
ghost use Rattle.dp_profile_text.specs.ProfileText.{ProfileText};
ghost use Rattle.dp_profile_text.specs.Refused.{ReadsOnlyProfile};
ghost use Rattle.dp_profile_text.specs.WrittenText.{profile_text};

use dp_tree::Program;

/// What is written of a profile that fits an inlined program is read back as this profile and nothing else.
#[tactic(auto, using(crate::proofs::ReadBack::read_back, crate::proofs::ReadBack::read_back_only))]
pub fn written_profiles_are_read(p: &Program)
    requires inlined { IsInlined p.now }
    ensures text { (profile : profile_of_regions) → ProfileFits p.now profile → ProfileText p.now (profile_text p.now profile) profile }
    ensures alone { (profile : profile_of_regions) → ProfileFits p.now profile → ReadsOnlyProfile p.now (profile_text p.now profile) profile }
{}

/// The profile that a text is read as fits the program, so what is written of it is read back.
#[tactic(auto, using(crate::proofs::ReadBack::read_fits))]
pub fn read_profiles_fit(p: &Program)
    ensures { (bytes : List ℕ) (profile : profile_of_regions) → ProfileText p.now bytes profile → ProfileFits p.now profile }
{}
