// How to use the program.

pub fn print(rt: &HostRuntime) -> anyhow::Result<()> {
    println!(rt;
        "pazhenool: the cheapest connection in a timetable, and if it says there is none, there is none.

  pazhenool check FILE      how many trains and stops the timetable has, or its first fault
  pazhenool print FILE      the timetable, written back byte for byte
  pazhenool search FILE     answers the queries of standard input, one a line:
                            FROM TO DAY TIME CHANGES FEATURES TARIFF
      --dates FILE          codes run on the days of these rows, CODE,FIRST,LAST, and not by weekdays
      --exceptions FILE     but for the days of these rows, CODE,DAY,yes or CODE,DAY,no

A DAY is a number, day 0 being 2000-01-01, or a date. TARIFF is minutes:PENALTY, fares or waits.

  echo '1 4 2000-01-04 07:50 2 0 minutes:5' | pazhenool search examples/small.txt"
    )?;
    Ok(())
}
