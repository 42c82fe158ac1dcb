//! A law of the answers. The function takes nothing and does nothing: its contract is the law.

ghost use Rattle.std.specs.Prelude.{◌≡◌, List, ℕ, ℤ, Ok};
ghost use Rattle.pg_interval.specs.Cell.{IsInterval};
ghost use Rattle.pg_interval.specs.declared.pg_interval.Interval.{Interval};
ghost use Rattle.pg_portal.specs.Told.{BoundPortal};
ghost use Rattle.pg_results.specs.declared.client.ClientInfo.{ClientInfo};
ghost use Rattle.pg_results.specs.declared.format.Format.TheVariants as format;
ghost use Rattle.query_texts.specs.QueryTexts.{trimmed};
ghost use Rattle.interval_texts.specs.Reading.{interval_of};
ghost use Rattle.row_handlers.specs.Told.{told_extended, told_simple};
ghost use Rattle.styles.specs.Told.{IsAnsweredBy, AreAnsweredBy, interval_asked, told_styles};
ghost use Rattle.styles.specs.declared.answers.StylesStatement.{StylesStatement};

use pg_interval::printed_texts_are_read_back;

/// A query that stands for an interval is answered by one row, of which each cell stands for this
/// interval and for no other, in the style of its column.
pub fn each_cell_stands_for_its_query()
    ensures simple { (client : ClientInfo) (query : List ℕ) (i : Interval) → IsInterval i
        → interval_of (trimmed query) ≡ Ok i
        → AreAnsweredBy (told_simple told_styles client query).outcome i }
    ensures extended { (client : ClientInfo) (p : BoundPortal StylesStatement) (limit : ℤ)
        (i : Interval) → IsInterval i → interval_asked p ≡ Ok i
        → IsAnsweredBy p.result_column_format ((told_extended told_styles).query client p limit).outcome i }
{
    printed_texts_are_read_back();
}
