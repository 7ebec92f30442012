//! Words worked by hand.
ghost use Rattle.jl_words.specs.WorkedWords.{NoJobs, OneFile, StrictOnes, AfterOptions, SeveralOptions, MadeTakes, MadeRefuses, Numbers};

/// What lists of words ask for.
pub fn worked_words()
    ensures no_jobs { NoJobs }
    ensures one_file { OneFile }
    ensures strict { StrictOnes }
    ensures after_options { AfterOptions }
    ensures several { SeveralOptions }
    ensures made_takes { MadeTakes }
    ensures made_refuses { MadeRefuses }
    ensures numbers { Numbers }
{}
