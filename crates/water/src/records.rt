// The laws of the records' numbers.
ghost use Rattle.water.specs.Parts.{HasRecordLaw, NumberLaw, RecordLaw};

// In a numbered tree each number in its range names one record, and the water at that number is that record's.
pub fn a_number_names_one_record()
    ensures found { HasRecordLaw }
    ensures every { NumberLaw }
    ensures named { RecordLaw }
{}
