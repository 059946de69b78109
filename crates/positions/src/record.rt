// What is known of one party in one hour.
ghost use Rattle.std.specs.Prelude.{◌≡◌};
ghost use Rattle.positions.specs.Records.{both_read, with_reading};

use units::KilowattHours;

#[derive(Clone, Copy)]
pub enum Meter {
    Production,
    Consumption,
}

// By default nothing planned and nothing read.
#[derive(Clone, Copy, Default)]
pub struct PositionRecord {
    pub plan: KilowattHours,
    pub produced: Option<KilowattHours>,
    pub consumed: Option<KilowattHours>,
}

impl PositionRecord {
    // Takes a reading of one of the meters; a later one replaces it.
    pub(crate) fn read(&mut self, meter: Meter, energy: KilowattHours)
        ensures { self.new ≡ with_reading meter energy self.old }
    {
        match meter {
            Meter::Production => self.produced = Some(energy),
            Meter::Consumption => self.consumed = Some(energy),
        }
    }

    pub(crate) fn has_both(&self) -> bool
        ensures { result ≡ both_read self.now }
    {
        self.produced.is_some() && self.consumed.is_some()
    }
}
