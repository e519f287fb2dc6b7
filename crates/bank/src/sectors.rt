// Whole sectors.
ghost use Rattle.bank.specs.Whole.{WholeSectorsStay};

/// Where the sectors were whole at first and each write is of a whole one, they are whole at each mark.
pub fn whole_sectors_stay()
    ensures { WholeSectorsStay }
{}
