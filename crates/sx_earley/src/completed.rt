//! Charts.

ghost use Rattle.std.specs.Prelude.{◌≡◌};

use crate::span::Span;
use std::marker::Model;

/// The spans that the items complete, each once, and the greatest end of any item.
#[derive(Drop)]
pub struct Chart {
    pub(crate) spans: Vec<Span>,
    pub(crate) reach: u32,
}

impl Model for Chart {
    ghost use Rattle.sx_earley.specs.Completed.{ChartData};

    ghost Value = { ChartData };

    ghost view = { λ c. record { spans = c.spans.items; reach = c.reach } };
}

impl Chart {
    /// The completed spans, each once.
    pub fn spans(&self) -> &[Span]
        ensures { result.now ≡ self.now.spans }
    {
        &self.spans
    }

    /// The greatest end of any item; 0 where no item holds.
    pub fn reach(&self) -> u32
        ensures { result ≡ self.now.reach }
    {
        self.reach
    }
}
