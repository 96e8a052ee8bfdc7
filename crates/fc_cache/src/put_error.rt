//! Why an entry was not put into a cache.
use fc_base::TryReserveError;

/// Why a cache is as it was.
#[derive(Debug, PartialEq, Eq, Clone, Copy, Drop)]
pub enum PutError {
    /// The entry alone costs more than the whole budget.
    OverBudget,
    /// Room for the entry was refused.
    Refused(TryReserveError),
}
