//! What words order.

ghost use Rattle.rota_moments.specs.Moments.{IsMoment};

use pg_text::IntervalStyle;
use rota_moments::Moment;

/// A rota that words name: the intervals of a relation's column, from a start on.
#[derive(Clone, Copy)]
pub struct RotaWords<'w> {
    /// The name of the relation.
    pub relation: &'w str,
    /// The name of the column.
    pub column: &'w str,
    /// The first moment.
    pub start: Moment,
    ghost valid: { IsMoment start },
}

/// What words order.
#[derive(Clone, Copy)]
pub enum Order<'w> {
    /// The lines of a rota, with its intervals in this style.
    Lines(RotaWords<'w>, IntervalStyle),
    /// The clashes of two rotas.
    Clashes(RotaWords<'w>, RotaWords<'w>),
}
