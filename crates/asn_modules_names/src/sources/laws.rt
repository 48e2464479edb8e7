//! States the law of texts that are read together, as the contract of a function that does nothing.
//! A call gives the caller's proof the law, and no code.
ghost use Rattle.asn_modules_names.specs.Mentions.{Source};
ghost use Rattle.asn_modules_names.specs.sources.Reading.{AreRead, Named};
ghost use Rattle.std.specs.Prelude.{◌≡◌, List};

/// Texts are read as at most one list of texts with their modules.
pub fn one_list_of_sources()
    ensures { (texts : List Named) (sources others : List Source)
        → AreRead texts sources → AreRead texts others → sources ≡ others }
{}
