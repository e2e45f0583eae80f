//! Laws of the forms.
ghost use Rattle.std.specs.Prelude.{ℕ, ◌≡◌, ◌≤◌, ◌++◌, List, codes, length, get_or};
ghost use Rattle.t1_event.specs.Printable.{HasText};
ghost use Rattle.t1_event.specs.declared.commit.Commit.{Commit as CommitData};
ghost use Rattle.t1_event.specs.declared.item.Item.{Item as ItemData};
ghost use Rattle.t1_event.specs.declared.report.Config.{Config as ConfigData};
ghost use Rattle.t1_event.specs.declared.report.Place.{Place as PlaceData};
ghost use Rattle.t1_event.specs.declared.trace.Ending.{Ending as EndingData};
ghost use Rattle.t1_log.specs.Lines.{config_line_of, entry_line_of, block_line_of, ending_line_of, place_line_of, end_line};
ghost use Rattle.t1_log.specs.Log.{item_line_of, commit_line_of, console_line_of};
ghost use Rattle.t1_line_forms.specs.Forms.{HasForm, letter};
ghost use Rattle.t1_line_forms.specs.Words.{IsWord, AreConfigWords, ArePlaceWords, AreCommitWords};
ghost use Rattle.t1_line_forms.specs.declared.line.Line.{Line as LineData};
ghost use Rattle.t1_line_forms.specs.declared.line.Line.TheVariants as line_of;

/// A line that has a form begins with the letter of its kind.
pub fn form_begins()
    ensures { (kind : LineData) (line : List ℕ) → HasForm kind line → get_or line 0 0 ≡ letter kind }
{}

/// The lines of a log, as they are printed, have their forms.
pub fn printed_lines_have_forms()
    ensures config { (config : ConfigData) (line : List ℕ) → AreConfigWords config → line ++ codes "\n" ≡ config_line_of config → HasForm line_of.Config line }
    ensures entry { (entry : ℕ) (line : List ℕ) → line ++ codes "\n" ≡ entry_line_of entry → HasForm line_of.Entry line }
    ensures block { (addr : ℕ) (bytes line : List ℕ) → length bytes ≡ 32 → line ++ codes "\n" ≡ block_line_of addr bytes → HasForm line_of.Block line }
    ensures item { (strand number : ℕ) (item : ItemData) (line : List ℕ) → HasText item → ArePlaceWords item.how → line ++ codes "\n" ≡ item_line_of strand number item → HasForm (line_of.Item strand number) line }
    ensures end { (strand : ℕ) (ending : EndingData) (units pc : ℕ) (line : List ℕ) → IsWord units → line ++ codes "\n" ≡ ending_line_of strand ending units pc → HasForm (line_of.End strand) line }
    ensures commit { (index : ℕ) (commit : CommitData) (line : List ℕ) → AreCommitWords commit → length commit.kills ≤ 64 → line ++ codes "\n" ≡ commit_line_of index commit → HasForm (line_of.Commit index) line }
    ensures order { (place : PlaceData) (line : List ℕ) → IsWord place.strand → IsWord place.item → line ++ codes "\n" ≡ place_line_of place → HasForm line_of.Order line }
    ensures console { (number : ℕ) (bytes line : List ℕ) → 1 ≤ length bytes → length bytes ≤ 32 → line ++ codes "\n" ≡ console_line_of number bytes → HasForm line_of.Console line }
    ensures last { (line : List ℕ) → line ++ codes "\n" ≡ end_line → HasForm line_of.Last line }
{}
