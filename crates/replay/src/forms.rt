// The forms of an answer in the words of docs/REPLAY.md. A form has a line for each of its codes, in the order of include/tergyosul.h; show.rt says how a line is read. The lines of a
// form stand behind its letter, and the forms that they use before it: Reading, Selector, Event, Light target, Bound, Value, Operand, Trigger, Condition.

pub const FORMS: [u8; 1750] = *b"R
lamp_level #1 #2
lamp_cct #1 #2
lamp_is_on #1 #2
lamp_last_level #1 #2
group_any_on #1 #2
group_all_off #1 #2
group_member_count #1 #2
input_occupied #1 #2 #3
input_light #1 #2 #3
input_position #1 #2 #3
input_last_event_age #1 #2 #3
time_now
time_hour
time_minute
time_weekday
sun_rise
sun_set
sun_is_up
event_value
event_device
event_instance
event_option
var $1
S
instance #1 #2 #3
group #1 #2 ?3
E
press
release
short_press
double_press
long_press_start
long_press_repeat
long_press_stop
button_free
button_stuck
movement
no_movement
any_event
raw #1
L
lamp #1 #2
group #1 #2
broadcast #1
B
clock #1
solar |1|sunrise|sunset +2
V
literal %5
reading R1
offset R1 %5
O
value literal %5
value reading R1
value offset R1 %5
text $1
T
input_event S1 E5
input_occupancy #1 #2 #3 |4|occupied|vacant
input_light_cross #1 #2 #3 |4|above|below #5
input_position_change #1 #2 #3
input_device_power_cycled #1 #2
input_device_manual_config_changed #1 #2
at_time #1 @2
at_solar |1|sunrise|sunset +2 @3
every #1
lamp_turns #1 #2 |3|on|off
lamp_level_cross #1 #2 |3|above|below #4
group_becomes #1 #2 |3|any_on|all_off
scene_recalled #1 #2
device_online #1 #2 |3|goes_offline|comes_online
hcl_override L1 |4|starts|clears
timer_fires $1
controller_starts
controller_becomes_active
rule_fails $1
http_trigger
mqtt $1
C
time_in_range B1 B4
sun_is |1|up|down
lamp_is #1 #2 |3|on|off
lamp_level #1 #2 |3|eq|ne|ge|le|gt|lt V4
lamp_cct #1 #2 |3|eq|ne|ge|le|gt|lt V4
group_state #1 #2 |3|any_on|all_off
input_occupancy #1 #2 #3 |4|occupied|vacant
input_light #1 #2 #3 |4|above|below V5
hcl_state L1 |4|enabled|overridden
device_online #1 #2
rule_enabled $1
last_fired_older_than $1 #3
timer_running $1
controller_active
var_compare $1 |3|eq|ne|ge|le|gt|lt O4
day_in *1";
