ghost use Rattle.funnel_io.specs.Borrowed.{Borrowed, nothing};

/// What may hold references of its caller's. No read and no write exchanges them for others, so
/// the caller knows afterwards what became of the values behind them.
pub trait Borrower {
    // The references by their names, and what stands behind them; most objects hold none.
    ghost borrowed: { Self → Borrowed } = { λ _. nothing };
}
