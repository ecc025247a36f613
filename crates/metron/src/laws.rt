//! What holds of all words, bindings and texts of chains. The contract of the function is the law.
ghost use Rattle.metron.specs.Laws.{OneAnswer};

use mt_click::laws::one_reading;
use mt_command::laws::{one_answer_of_bindings, one_answer_of_words};
use mt_elements::laws::one_answer;
use mt_synth::laws::classes_are_counted;

/// Words, bindings, classes and texts of chains have no two answers.
pub(crate) fn one_answer_of_runs()
    ensures { OneAnswer }
{
    one_answer_of_words();
    one_answer_of_bindings();
    one_reading();
    one_answer();
    classes_are_counted();
}
