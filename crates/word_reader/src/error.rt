//! Errors of words.
use thiserror::Error;

/// Why words give no order.
#[derive(Clone, Copy, Debug, PartialEq, Eq, Error)]
pub enum WordError {
    #[error("the words ask for nothing that can be done")]
    Usage,
}
