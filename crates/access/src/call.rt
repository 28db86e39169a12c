// The two calls as one.
ghost use Rattle.definitions.specs.Answer.{outcome};
ghost use Rattle.answers.specs.Answers.{Answered, input_of};
ghost use Rattle.access.specs.Calls.{call_of};

use answers::{Answer, Settings};

// Which of the two (FORMAT 7.1).
#[derive(Clone, Copy)]
pub enum Call {
    Order,
    Schedule,
}

impl Call {
    // What it answers.
    pub fn run(
        self,
        settings: Settings,
        sheet: &[u8],
        listing: &mut [u8],
        diagnosis: &mut [u8],
    ) -> Answer
        ensures { Answered result listing.new diagnosis.new (outcome (input_of (call_of self) settings sheet.now listing.old diagnosis.old)) }
    {
        match self {
            Call::Order => crate::order(settings, sheet, listing, diagnosis),
            Call::Schedule => crate::schedule(settings, sheet, listing, diagnosis),
        }
    }
}
