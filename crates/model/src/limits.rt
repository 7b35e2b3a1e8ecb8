// The limits of names and of the numbers in a reference; those of the kinds of references stand beside Ref.
pub const MAX_NAME_BYTES: usize = 48;

pub const MAX_ADAPTER: u32 = 255;

pub const MAX_PARTY: u32 = 255;

pub const MAX_INSTANCE: u32 = 31;

pub const MAX_INSTANCE_GROUP: u32 = 31;

pub const MAX_INSTANCE_TYPE: u32 = 31;
