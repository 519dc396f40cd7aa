//! What the texts mean, as a law.

ghost use Rattle.rmt_sample.specs.Meaning.{SampleIsMeant};

/// The texts mean a program with its entries, for every number from 1 to 100,000.
pub fn sample_is_meant()
    ensures { SampleIsMeant }
{}
