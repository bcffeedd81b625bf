//! The labels of a map, written one after another.
ghost use Rattle.std.specs.Prelude.{◌≡◌, ◌≤◌, OnOk, length, map as mapped};
ghost use Rattle.serde_json.specs.Events.{members_len};
ghost use Rattle.smap_canon.specs.Layout.{written};
ghost use Rattle.smap_canon.specs.Writing.{SendsAll, member_of_label};

use crate::layout::optional_member;
use serde::Serializer;
use smap_record::LabelView;

/// How many of the labels are written.
pub(crate) fn label_count(labels: &[LabelView<'_>]) -> usize
    ensures count { result ≡ members_len (written (mapped member_of_label labels.now)) }
    ensures few { result ≤ length labels.now }
{
    let mut count: usize = 0;
    for i in 0..labels.len() {
        let label = labels[i];
        if label.text.is_some() {
            count += 1;
        }
    }
    count
}

/// Sends the labels that are written.
pub(crate) fn send_labels<S: Serializer>(
    out: &mut S,
    labels: &[LabelView<'_>],
) -> Result<(), S::Error>
    ensures { OnOk result
        (SendsAll (mapped member_of_label labels.now) (S.written out.old) (S.written out.new)) }
{
    for i in 0..labels.len() {
        let label = labels[i];
        optional_member(out, label.name, &label.text)?;
    }
    Ok(())
}
