// The types that definitions and code share. What they mean is said in specs/; there is no code here.
#![tactic(auto)]

// 01, Quantities: kilowatts, metres of marginal distance, micro-pounds per kilowatt. A number of one never stands for another.
#[derive(Clone, Copy)]
pub struct Kw(pub u64);

#[derive(Clone, Copy)]
pub struct Metres(pub i64);

#[derive(Clone, Copy)]
pub struct MicroPerKw(pub i64);

// 01, The case file: the settings, in its order (inputs: CUSC 14.15.5 to 9; p 14.14.5(v), constant 14.15.31 to 41, security factors 14.15.54 to 57).
// p, factors and security factors in thousandths; constant in pence/MWkm; reference is a row from 1; the settings' zero names the edition (02, request 5);
// revenue in pounds.
#[derive(Clone, Copy)]
pub struct Settings {
    pub generation_zones: usize,
    pub demand_zones: usize,
    pub p: usize,
    pub constant: usize,
    pub wider_factor: usize,
    pub local_factor: usize,
    pub overhead400: usize,
    pub cable400: usize,
    pub overhead275: usize,
    pub cable275: usize,
    pub overhead132: usize,
    pub cable132: usize,
    pub reference: usize,
    pub edition: Edition,
    pub revenue: u64,
}

// 01, The case file: where a section starts, the bytes of its records, and how many there are. Numbers of a file, of 32 bits each.
#[derive(Clone, Copy)]
pub struct Section {
    pub start: u32,
    pub size: u32,
    pub count: u32,
}

// 02, request 5: "Some clients use the later edition of 14.15, some the earlier." Edition 1 is 01's.
#[derive(Clone, Copy)]
pub enum Edition {
    First,
    Second,
}

// 02, request 5: edition 2 has two backgrounds. 01, edition 1, has one, under the name of year round.
#[derive(Clone, Copy, PartialEq, Eq)]
pub enum Background {
    YearRound,
    Peak,
}

// 14.15.7 (of the later edition): a plant type runs at a percentage of its TEC, or shares the demand that remains. An enum and no option: neither is the lack of the other.
#[derive(Clone, Copy)]
pub enum Running {
    Fixed(u64),
    Variable,
}

// 02, request 5: the background that a circuit counts for.
#[derive(Clone, Copy)]
pub enum Counting {
    For(Background),
    Doubtful,
}

// 01, The case file: the three solutions, systems 1, 2 and 3; 02, request 5: 4 and 5, peak's. Each background has its base and its wider one.
#[derive(Clone, Copy)]
pub enum System {
    Base(Background),
    Wider(Background),
    Local,
}

// 01, The case file: plant types 1 to 7, the rows of the table in 14.15.7.
#[derive(Clone, Copy, PartialEq, Eq)]
pub enum Plant {
    Intermittent,
    NuclearAndCcs,
    Interconnector,
    Hydro,
    PumpedStorage,
    Peaking,
    Other,
}

// 01, steps 7 to 10 are the same for both.
#[derive(Clone, Copy)]
pub enum Side {
    Generation,
    Demand,
}

// 01, step 4: the direction of a circuit's base flow. Forward is from the first node to the second.
#[derive(Clone, Copy)]
pub enum Direction {
    Idle,
    Forward,
    Backward,
    InDoubt,
}

// 01, What stops a case: a case for each number 1 to 12, with the system and the row (from 1) where the table has one; and for 02's numbers.
#[derive(Clone, Copy)]
pub enum Refusal {
    BadFile,
    BadSetting,
    BadNode(usize),
    BadCircuit(usize),
    BadStation(usize),
    Unreached(usize),
    BadTotal,
    BadNumber(System, usize),
    Unbalanced(System, usize),
    MissesTooHigh(System),
    DirectionInDoubt(Background, usize),
    ShortBuffer,
    NoChargeableTec,
    Unscalable,
    BackgroundInDoubt(usize),
    BadShare(usize),
}

// 01, Arithmetic: the five proposed solutions, as runs that are lent; peak's are empty in edition 1.
#[derive(Clone, Copy)]
pub struct Solutions<'a> {
    pub base: &'a [i64],
    pub wider: &'a [i64],
    pub local: &'a [i64],
    pub peak_base: &'a [i64],
    pub peak_wider: &'a [i64],
}

// What a stage of 01's order makes of a case: it goes on to the next stage, or it is refused.
pub type Judgement = Result<(), Refusal>;

// What an entry answers: accepted with the length of the sheet, or refused. There is no accepting without a sheet.
pub type Answer = Result<usize, Refusal>;

// What an answer carries: 01's number (0 for accepted), system and row, and the sheet's length. Numbers, as the C interface has them.
#[derive(Clone, Copy)]
pub struct Values {
    pub number: usize,
    pub system: usize,
    pub row: usize,
    pub length: usize,
}

// 01, The sheet: what a line of a zone says of a background.
#[derive(Clone, Copy)]
pub struct WiderFigures {
    pub metres: Metres,
    pub after_c: Metres,
    pub tariff: MicroPerKw,
}

// 02, request 6: what it says of the shared metres.
#[derive(Clone, Copy)]
pub struct SharedFigures {
    pub metres: Metres,
    pub tariff: MicroPerKw,
}

// What a line of a zone says. In edition 1 peak's figures are 0, and not printed; and so are shared ones where nothing is shared.
#[derive(Clone, Copy)]
pub struct ZoneFigures {
    pub weight: Kw,
    pub year_round: WiderFigures,
    pub peak: WiderFigures,
    pub shared: SharedFigures,
    pub total: MicroPerKw,
}

// What the lines of a side's zones have of metres and tariffs: edition 1's one background, edition 2's two, and these with the shared metres (02, request 6).
#[derive(Clone, Copy)]
pub enum Form {
    OneBackground,
    TwoBackgrounds,
    Sharing,
}

// The lines of a side: its zones 1, 2, .. in order, and no kilowatts past their number.
#[derive(Clone, Copy)]
pub struct SideFigures {
    pub form: Form,
    pub zones: usize,
    pub residual: MicroPerKw,
    pub remainder: i64,
    pub zone: [ZoneFigures; 32],
}

// What a line of a node says.
#[derive(Clone, Copy)]
pub struct LocalFigures {
    pub tec: Kw,
    pub metres: Metres,
    pub tariff: MicroPerKw,
}

// 01, steps 6 to 10: all that the sheet prints but the names. In edition 1 peak's C is 0, and not printed.
#[derive(Clone, Copy)]
pub struct Figures {
    pub edition: Edition,
    pub c: Metres,
    pub peak_c: Metres,
    pub generation: SideFigures,
    pub demand: SideFigures,
    pub nodes: usize,
    pub local: [LocalFigures; 256],
}

// 01, The sheet: what the program prints, the first `length` of these bytes (there is no heap). No sheet is longer than 17,258.
#[derive(Clone, Copy)]
pub struct Printed {
    pub length: usize,
    pub bytes: [u8; 17408],
}
