//! The definitions in examples.
ghost use Rattle.std.specs.Prelude.{◌≡◌, None};
ghost use Rattle.lrc_words.specs.CommandLine.{AreRefused, AreTaken, Says, verb_of};
ghost use Rattle.lrc_words.specs.Examples.{a_generated_run, a_number_too_large, a_repeated_option};
ghost use Rattle.lrc_words.specs.Examples.{a_run, a_wish_for_help, an_unknown_command, usual_run};
ghost use Rattle.lrc_words.specs.declared.command.Verb.TheVariants.{Gen};

/// `lrc run` asks for a run with the usual numbers, and an option sets its number alone, before the
/// command or behind it.
pub fn options_set_their_numbers()
    ensures usual { Says a_run usual_run }
    ensures set { Says a_generated_run (record usual_run { verb = Gen; seed = 7; nodes = 20 }) }
{}

/// A repeated option, a number out of its range and a wish for help are refused; an unknown command
/// is none of the five.
pub fn other_words_are_refused()
    ensures repeated { AreRefused a_repeated_option }
    ensures range { AreRefused a_number_too_large }
    ensures help { AreRefused a_wish_for_help }
    ensures unknown { verb_of an_unknown_command ≡ None }
{}
