// What an answer says, as 01 lists it: number, system and row. And which of two stages stops a case.
#![tactic(auto)]

ghost use Rattle.std.specs.Prelude.{◌≡◌};
ghost use Rattle.std.specs.Prelude.{Err};
ghost use Rattle.meaning.specs.Editions.{system_number};
ghost use Rattle.meaning.specs.Answers.{values, ◌or_else◌};

use meaning::{Answer, Background, Judgement, Refusal, System, Values};

// The number of a system.
#[tactic(auto, unfolding(meaning::specs::Editions::system_number))]
fn system_number(system: System) -> usize
    ensures { result ≡ system_number system }
{
    match system {
        System::Base(Background::YearRound) => 1,
        System::Wider(Background::YearRound) => 2,
        System::Local => 3,
        System::Base(Background::Peak) => 4,
        System::Wider(Background::Peak) => 5,
    }
}

// A refusal's values: no sheet.
fn refusal(number: usize, system: usize, row: usize) -> Values
    ensures { result ≡ Rattle.meaning.specs.Answers.refusal number system row }
{
    Values {
        number,
        system,
        row,
        length: 0,
    }
}

// What a refusal carries: a row of 01's table, or one of 02's numbers.
pub fn of_refusal(cause: Refusal) -> Values
    ensures { result ≡ values (Err cause) }
{
    match cause {
        Refusal::BadFile => refusal(1, 0, 0),
        Refusal::BadSetting => refusal(2, 0, 0),
        Refusal::BadNode(row) => refusal(3, 0, row),
        Refusal::BadCircuit(row) => refusal(4, 0, row),
        Refusal::BadStation(row) => refusal(5, 0, row),
        Refusal::Unreached(row) => refusal(6, 0, row),
        Refusal::BadTotal => refusal(7, 0, 0),
        Refusal::BadNumber(system, row) => refusal(8, system_number(system), row),
        Refusal::Unbalanced(system, row) => refusal(9, system_number(system), row),
        Refusal::MissesTooHigh(system) => refusal(10, system_number(system), 0),
        Refusal::DirectionInDoubt(background, row) => refusal(
            11,
            system_number(System::Base(background)),
            row,
        ),
        Refusal::ShortBuffer => refusal(12, 0, 0),
        Refusal::NoChargeableTec => refusal(13, 0, 0),
        Refusal::Unscalable => refusal(14, 0, 0),
        Refusal::BackgroundInDoubt(row) => refusal(15, 0, row),
        Refusal::BadShare(row) => refusal(16, 0, row),
    }
}

// What an answer carries: 01's number, system and row, and the sheet's length.
pub fn values(answer: Answer) -> Values
    ensures { result ≡ values answer }
{
    match answer {
        Ok(length) => Values {
            number: 0,
            system: 0,
            row: 0,
            length,
        },
        Err(cause) => of_refusal(cause),
    }
}

// What stops a case first: the first stage if it stops it, else the second.
pub fn or_else(first: Judgement, second: Judgement) -> Judgement
    ensures { result ≡ first or_else second }
{
    first?;
    second
}
