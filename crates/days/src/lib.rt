// The calendars as mathematics: the definition day by day, and its laws. Specifications only, no function.

#![tactic(auto)]
