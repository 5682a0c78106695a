// Known dates, calendars and windows as a proved table: in specs/. No code.
#![tactic(auto)]
