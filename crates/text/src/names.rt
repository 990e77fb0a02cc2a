// The first line of a text.
pub const NAMES: &[u8] = b"train,code,features,station,arrive,depart,fare";
