//! A link, and what its loss and its cost are.
ghost use Rattle.std.specs.Prelude.{◌≡◌};
ghost use Rattle.line_place.specs.Rows.{loss_at, cost_by_loss, cost_at, link_over};

/// What a frame meets on its way to one hearer.
#[derive(Clone, Copy, Debug)]
pub struct Link {
    /// The node that hears it.
    pub to: u32,
    /// The chance that it is lost there, in ten-thousandths.
    pub loss: u32,
    /// What the hearer counts for the hop.
    pub cost: u8,
}

/// How the loss of a link follows from the distance, in ten-thousandths.
#[derive(Clone, Copy, Debug)]
pub struct Losses {
    /// To the nearest.
    pub nearest: u16,
    /// More for each step past the nearest.
    pub step: u16,
}

/// How the cost of a link follows from its loss.
#[derive(Clone, Copy, Debug)]
pub enum Costs {
    /// Eight times the tries that a frame takes on average, rounded up: 8 without loss, at most 255.
    ByLoss,
    /// The same for every link.
    Same(u8),
}

impl Losses {
    /// The loss this many steps past the nearest, at most 9,900.
    #[tactic(auto, unfolding(crate::specs::Rows::loss_at))]
    pub fn at(&self, steps: u32) -> u32
        ensures { result ≡ loss_at self.now steps }
    {
        let loss = u64::from(self.nearest) + u64::from(self.step) * u64::from(steps);
        loss.min(9_900) as u32
    }
}

impl Costs {
    /// The cost of a link with a loss.
    #[tactic(auto, unfolding(crate::specs::Rows::cost_at))]
    pub fn of(&self, loss: u32) -> u8
        ensures { result ≡ cost_at self.now loss }
    {
        match *self {
            Costs::ByLoss => cost_by_loss(loss),
            Costs::Same(cost) => cost,
        }
    }
}

// The cost by the tries that a frame takes. Where more than 97 of 100 frames are lost, the cost is that at 97.
#[tactic(auto, unfolding(crate::specs::Rows::cost_by_loss))]
fn cost_by_loss(loss: u32) -> u8
    ensures { result ≡ cost_by_loss loss }
{
    let come = 10_000 - loss.min(9_700);
    ((80_000 + come - 1) / come).min(255) as u8
}

// The link to a node this many steps past the nearest.
#[tactic(auto, unfolding(crate::specs::Rows::link_over))]
pub(crate) fn link_over(losses: &Losses, costs: &Costs, to: u32, steps: u32) -> Link
    ensures { result ≡ link_over losses.now costs.now to steps }
{
    let loss = losses.at(steps);
    Link {
        to,
        loss,
        cost: costs.of(loss),
    }
}
