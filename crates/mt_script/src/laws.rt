//! What the grammar of scripts says, beside how they are read. The contract of each function is the law; there
//! is nothing to run.
ghost use Rattle.std.specs.Prelude.{◌≡◌, ◌≢◌, ◌+◌, ◌-◌, ◌∷◌, ◌++◌, ℕ, List, Ok, length, slice_index, count_by};
ghost use Rattle.std.specs.List.{AllByRecursion};
ghost use Rattle.mt_script.specs.declared.command.Command.{Command as TheCommand};
ghost use Rattle.mt_script.specs.Printed.{script_text, CanBeSaid, one_after_other};
ghost use Rattle.mt_script.specs.Script.{commands_of, is_line_feed};

use mt_text::laws::decimal_is_numeral;

/// Commands are read back from their standard form: a line for each, its name and its numbers in decimal, with
/// one space between two words.
pub fn standard_form_is_read_back()
    ensures { (commands : List TheCommand) → AllByRecursion CanBeSaid commands → commands_of (script_text commands) ≡ Ok commands }
{
    decimal_is_numeral();
}

/// The commands of a script can be written in their standard form: each number is below 1,000,000,000 and at
/// least the least that may stand there.
pub fn commands_can_be_said()
    ensures { (text : List ℕ) (commands : List TheCommand) → commands_of text ≡ Ok commands → AllByRecursion CanBeSaid commands }
{
    decimal_is_numeral();
}

/// A line feed between two texts makes them one that says what the first does, then what the second does. A
/// carriage return at the end of the first would be part of a word there, and of the line's end in the whole.
pub fn texts_follow_each_other()
    ensures { (front behind : List ℕ) → slice_index front (length front - 1) ≢ 13
        → commands_of (front ++ 10 ∷ behind) ≡ one_after_other (count_by is_line_feed front + 1) (commands_of front) (commands_of behind) }
{}
